// consume: the controller takes the oldest stored packet of a connection into reassembly and hands out a finished message; on
// a loopback the packet also goes up, unchanged but for the credits that it carries.
ghost use Rattle.std.specs.Prelude.{◌≡◌, ◌+◌, ◌≤◌, ◌<◌, length};
ghost use Rattle.octets.specs.Octets.{pick, cut, splice};
ghost use Rattle.state.specs.Conn.{place_of, flows, credit_sum};
ghost use Rattle.state.specs.Refusal.{number_in};
ghost use Rattle.state.specs.Runs.{joined_of};
ghost use Rattle.area.specs.Map.{area_size, payload_size, message_size, controller_run_at};
ghost use Rattle.record.specs.Claims.{saved};
ghost use Rattle.views.specs.View.{view};
ghost use Rattle.model.specs.calls.Consume.{is_loop, consume_rules};
ghost use Rattle.calls.specs.Word.{word_of};
ghost use Rattle.calls.specs.Outcome.{outcome, Lowest};
ghost use Rattle.calls.specs.calls.Consume.{controller_side, oldest_at, oldest_read, consumed_side, echoed_credits, consumed_record, consumed_run, echoed_slot, consumed_word, consumed_as, joined_by, consumed, Consumable};

use area::{map, movers, ring};
use packets::Header;
use record::write;
use state::kinds::{ControllerSide, Ends, Progress, Record};
use state::refusal::Refusal;
use state::runs::Joined;
use state::{conn, runs};

// ---- what refuses it

// Why a consume is not taken: the first of the model's rules, whatever the area's octets are.
#[tactic(auto, unfolding(calls::specs::Outcome::lowest), using(calls::proofs::ConsumeRecord::consume_tests_law))]
pub fn refusal(r: Record, conn: u8) -> Result<(), Refusal>
    ensures { Lowest (λ a. consume_rules conn (view a r)) (number_in result) }
{
    let side = conn::counts_of(r.ends.conns, conn).controller;
    Refusal::OutsideLimit.when(map::PLACES <= conn::place_of(conn))?;
    Refusal::TooFewSlots.when((0 != conn) & (map::WIRE <= r.up.count))?;
    Refusal::NotOpen.when(!side.opened)?;
    Refusal::NothingToMove.when(side.store.count == 0)
}

// ---- a consume that is taken

// The credits owed after a packet is consumed.
fn owed_after(grant: u8, owed: u8) -> u8
    ensures { result ≡ pick (flows grant) (credit_sum owed 1) owed }
{
    if grant != conn::UNMETERED {
        conn::credit_sum(owed, 1)
    } else {
        owed
    }
}

// The record before it, and the connection: no rule refuses it.
// The area, with its least length, is no part of it: it is written while these are read, and a struct with a `&mut` is no Copy.
#[derive(Clone, Copy)]
struct Consume {
    before: Record,
    conn: u8,
    ghost able: { Consumable before conn },
}

impl Consume {
    // ---- the record after it

    // Whether the connection is a loopback.
    fn loops(&self) -> bool
        ensures { result ≡ is_loop self.now.conn }
    {
        0 != self.conn
    }

    // The connection at the controller.
    fn side(&self) -> ControllerSide
        ensures { result ≡ controller_side self.now.before self.now.conn }
    {
        conn::counts_of(self.before.ends.conns, self.conn).controller
    }

    // The connection after the packet is consumed, its run being as far as next.
    fn consumed_side(&self, next: Progress) -> ControllerSide
        ensures { result ≡ consumed_side next (controller_side self.now.before self.now.conn) }
    {
        let k = self.side();
        ControllerSide {
            owed: owed_after(k.grant, k.owed),
            store: ring::took_from(map::STORE, k.store),
            run: next,
            ..k
        }
    }

    // The record after it. What a packet that goes up carries is no longer owed.
    fn plan(&self, next: Progress) -> Record
        ensures { result ≡ consumed_record self.now.before self.now.conn next }
    {
        let r = self.before;
        let mut side = self.consumed_side(next);
        let mut up = r.up;
        if self.loops() {
            side = conn::paid(side);
            up = ring::put_into(up);
        }
        let conns = conn::with_controller(r.ends.conns, self.conn, side);
        Record {
            ends: Ends { conns, ..r.ends },
            up,
            ..r
        }
    }

    // ---- the packet goes up on a loopback, and the record is written

    // Where the slot of the oldest stored packet starts.
    fn oldest_at(&self) -> usize
        ensures { result ≡ oldest_at self.now.before self.now.conn }
    {
        let base = map::store_at(conn::place_of(self.conn));
        ring::first_at(base, self.side().store)
    }

    // What the reader finds there.
    fn read(&self, area: &[u8]) -> Option<(Header, usize)>
        ensures { result ≡ oldest_read self.now.before self.now.conn area.now }
    {
        movers::read_slot(area, self.oldest_at())
    }

    // The credits that the packet carries: its own is owed first.
    fn credits_back(&self) -> u8
        ensures { result ≡ echoed_credits self.now.before self.now.conn }
    {
        conn::carried(self.consumed_side(self.side().run))
    }

    // On a loopback the slot is copied into the first free slot of the up wire, with the credits that the packet carries.
    fn echo(&self, area: &mut [u8])
        requires { area_size ≤ length area.old }
        ensures { area.new ≡ echoed_slot self.now.before self.now.conn area.old }
    {
        if self.loops() {
            let to = ring::free_at(map::UP_AT, map::WIRE, self.before.up);
            movers::return_slot(area, self.oldest_at(), to, self.credits_back());
        }
    }

    // The area after it, and the word, from the run after it. len: of the message that was handed out, 0 for none, as
    // `call_word` takes it.
    fn leave(&self, area: &mut [u8], j: Joined, len: usize) -> u64
        requires { (area_size ≤ length area.old) × (len ≤ message_size) }
        ensures { (result ≡ word_of j.dropped j.done len 0 (pick (is_loop self.now.conn) 1 0)) × (area.new ≡ saved (echoed_slot self.now.before self.now.conn area.old) (consumed_record self.now.before self.now.conn j.next)) }
    {
        self.echo(area);
        write::encode(area, self.plan(j.next));
        call_word::answer(j.dropped, j.done, len, usize::from(self.loops()))
    }

    // ---- the run

    // The payload joins the run.
    fn join(&self, area: &mut [u8], n: usize)
        requires { (area_size ≤ length area.old) × (n ≤ payload_size) }
        ensures { area.new ≡ consumed_run self.now.before self.now.conn n area.old }
    {
        let base = map::controller_run_at(conn::place_of(self.conn));
        let run = self.side().run;
        movers::join_run(area, base, map::MESSAGE, run, self.oldest_at(), n);
    }

    // A message of len octets that is whole is handed out.
    fn deliver(&self, area: &[u8], out: &mut [u8], len: usize)
        requires { (area_size ≤ length area.now) × (message_size ≤ length out.old) × (len ≤ message_size) }
        ensures { out.new ≡ splice out.old 0 (cut (controller_run_at (place_of self.now.conn)) len area.now) }
    {
        let from = map::controller_run_at(conn::place_of(self.conn));
        movers::hand_out(area, from, len, out);
    }

    // A packet that was read, with more to follow or not, and n octets of payload.
    #[tactic(auto, using(state::proofs::Progress::done_room))]
    fn take(&self, area: &mut [u8], out: &mut [u8], more: bool, n: usize) -> u64
        requires { (area_size ≤ length area.old) × (message_size ≤ length out.old) × (n ≤ payload_size) }
        ensures { outcome result area.new out.new ≡ consumed_as self.now.before self.now.conn (joined_of message_size (controller_side self.now.before self.now.conn).run more n) ((controller_side self.now.before self.now.conn).run.len + n) (consumed_run self.now.before self.now.conn n area.old) out.old }
    {
        let run = self.side().run;
        let j = runs::join(map::MESSAGE, run, more, n);
        self.join(area, n);
        if !j.done {
            return self.leave(area, j, 0);
        }
        let len = run.len + n;
        self.deliver(area, out, len);
        self.leave(area, j, len)
    }

    // A packet that the reader dropped: nothing joins the run.
    fn discard(&self, area: &mut [u8]) -> u64
        requires { area_size ≤ length area.old }
        ensures { (result ≡ consumed_word self.now.conn (joined_by self.now.before self.now.conn None) 0) × (area.new ≡ saved (echoed_slot self.now.before self.now.conn area.old) (consumed_record self.now.before self.now.conn (controller_side self.now.before self.now.conn).run)) }
    {
        let j = Joined {
            next: self.side().run,
            done: false,
            dropped: true,
        };
        self.leave(area, j, 0)
    }
}

// A consume that is taken.
#[tactic(auto, using(area::proofs::Moves::payload_few))]
pub fn act(area: &mut [u8], out: &mut [u8], r: Record, conn: u8) -> u64
    requires { (area_size ≤ length area.old) × (message_size ≤ length out.old) × Consumable r conn }
    ensures { outcome result area.new out.new ≡ consumed r conn area.old out.old }
{
    let consume = Consume { before: r, conn };
    match consume.read(area) {
        Some((h, n)) => consume.take(area, out, h.pbf, n),
        None => consume.discard(area),
    }
}
