// up: the host takes the first packet of the up wire, hands out a finished data message and hears a control message when it
// is whole.
ghost use Rattle.std.specs.Prelude.{◌≡◌, true, false, ◌+◌, ◌≤◌, ◌<◌, length};
ghost use Rattle.octets.specs.Octets.{pick, cut, splice};
ghost use Rattle.state.specs.Conn.{place_of};
ghost use Rattle.state.specs.Refusal.{number_in};
ghost use Rattle.ends.specs.Steps.{heeded};
ghost use Rattle.area.specs.Map.{area_size, payload_size, message_size, control_size, places, host_run_at, hearing_at};
ghost use Rattle.record.specs.Claims.{saved};
ghost use Rattle.views.specs.View.{view};
ghost use Rattle.model.specs.calls.Up.{up_rules};
ghost use Rattle.calls.specs.Word.{word_of};
ghost use Rattle.calls.specs.Outcome.{outcome, Lowest};
ghost use Rattle.calls.specs.calls.Push.{host_side};
ghost use Rattle.calls.specs.calls.Up.{up_slot, up_record, received_join, received_ends, received_area, received_length, received_word, received, received_up, heard_area, heard_ends, heard_word, coming_up, upped, Uppable};

use area::{map, movers, ring};
use dh::host;
use ends::message;
use packets::{Header, Way};
use record::write;
use state::kinds::{Ends, HostSide, Record};
use state::refusal::Refusal;
use state::runs::Joined;
use state::{conn, runs};

// ---- refusals

// Why an up is not taken: the first of the model's rules, whatever the area's octets are.
#[tactic(auto, unfolding(calls::specs::Outcome::lowest), using(calls::proofs::UpPacket::up_tests_law))]
pub fn refusal(r: Record) -> Result<(), Refusal>
    ensures { Lowest (λ a. up_rules (view a r)) (number_in result) }
{
    Refusal::NothingToMove.when(r.up.count == 0)
}

// ---- the record after it

// The packet is off the wire, and both ends have these numbers. These two are functions of the record, since a packet that cannot be
// read has no header for a `Coming`.
fn leave(area: &mut [u8], r: Record, ends: Ends)
    requires { (area_size ≤ length area.old) × Uppable r }
    ensures { area.new ≡ saved area.old (up_record r ends) }
{
    let up = ring::took_from(map::WIRE, r.up);
    write::encode(area, Record { ends, up, ..r });
}

// The packet is dropped: nothing else changes.
fn discard(area: &mut [u8], r: Record) -> u64
    requires { (area_size ≤ length area.old) × Uppable r }
    ensures { (result ≡ word_of true false 0 0 0) × (area.new ≡ saved area.old (up_record r r.ends)) }
{
    leave(area, r, r.ends);
    call_word::drops()
}

// ---- the packet

// A packet that was read, with the record before it is taken: its header, and how many octets its payload has.
#[derive(Clone, Copy)]
struct Coming {
    before: Record,
    header: Header,
    size: usize,
    ghost able: { Uppable before },
    ghost few: { size ≤ payload_size },
}

impl Coming {
    // Where it stands.
    fn slot(&self) -> usize
        ensures { result ≡ up_slot self.now.before }
    {
        ring::first_at(map::UP_AT, self.before.up)
    }

    // The host's side of its connection.
    fn side(&self) -> HostSide
        ensures { result ≡ host_side self.now.before self.now.header.id }
    {
        conn::counts_of(self.before.ends.conns, self.header.id).host
    }

    // ---- data

    // How it joins the connection's run.
    fn joined(&self) -> Joined
        ensures { result ≡ received_join self.now.before self.now.header self.now.size }
    {
        runs::join(map::MESSAGE, self.side().run, self.header.pbf, self.size)
    }

    // Both ends after a data packet: its credits are held, and its segment has joined the run.
    fn received(&self) -> Ends
        ensures { result ≡ received_ends self.now.before self.now.header self.now.size }
    {
        let ends = self.before.ends;
        let side = HostSide {
            run: self.joined().next,
            ..host::credited(self.side(), self.header.credits as usize)
        };
        Ends {
            conns: conn::with_host(ends.conns, self.header.id, side),
            ..ends
        }
    }

    // Data for a connection that is open at the host: the segment joins its run, and the message that it finishes is handed out.
    #[tactic(auto, using(state::proofs::Progress::done_room, area::proofs::Moves::length_run))]
    fn receive(&self, area: &mut [u8], out: &mut [u8]) -> u64
        requires { (area_size ≤ length area.old) × (message_size ≤ length out.old) × (place_of self.now.header.id < places) }
        ensures { outcome result area.new out.new ≡ received self.now.before self.now.header self.now.size area.old out.old }
    {
        let base = map::host_run_at(conn::place_of(self.header.id));
        let run = self.side().run;
        movers::join_run(area, base, map::MESSAGE, run, self.slot(), self.size);
        let j = self.joined();
        let mut n = 0;
        if j.done {
            n = run.len + self.size;
            movers::hand_out(area, base, n, out);
        }
        leave(area, self.before, self.received());
        call_word::quiet(j.dropped, j.done, n)
    }

    // A data packet.
    #[tactic(auto, unfolding(calls::specs::calls::Up::received_up))]
    fn take_data(&self, area: &mut [u8], out: &mut [u8]) -> u64
        requires { (area_size ≤ length area.old) × (message_size ≤ length out.old) }
        ensures { outcome result area.new out.new ≡ received_up self.now.before self.now.header self.now.size area.old out.old }
    {
        if !self.side().opened {
            return discard(area, self.before);
        }
        self.receive(area, out)
    }

    // ---- control

    // The segment joins the control run.
    fn join_hearing(&self, area: &mut [u8])
        requires { area_size ≤ length area.old }
        ensures { area.new ≡ heard_area self.now.before self.now.header self.now.size area.old }
    {
        let run = runs::run_for(self.before.ends.hearing, self.header);
        movers::join_run(
            area,
            map::HEARING_AT,
            map::CONTROL,
            run,
            self.slot(),
            self.size,
        );
    }

    // A whole message of len octets is heard.
    fn heed(&self, area: &mut [u8], ends: Ends, len: usize) -> u64
        requires { (area_size ≤ length area.old) × (len ≤ control_size) }
        ensures { (result ≡ word_of (heeded ends self.now.header.mt self.now.header.id self.now.header.oid (cut hearing_at len area.old)).dropped false 0 0 0) × (area.new ≡ saved area.old (up_record self.now.before (heeded ends self.now.header.mt self.now.header.id self.now.header.oid (cut hearing_at len area.old)).next)) }
    {
        let h = self.header;
        let m = octets::window(area, map::HEARING_AT, len);
        let d = message::heed(ends, h.mt, h.id, h.oid, m);
        leave(area, self.before, d.next);
        call_word::quiet(d.dropped, false, 0)
    }

    // A control packet: a segment that does not end its message only joins the run.
    #[tactic(auto, unfolding(calls::specs::calls::Up::heard_ends, calls::specs::calls::Up::heard_drop), using(state::proofs::Progress::control_base, state::proofs::Progress::control_room, area::proofs::Moves::length_run))]
    fn take_control(&self, area: &mut [u8]) -> u64
        requires { area_size ≤ length area.old }
        ensures { (result ≡ heard_word self.now.before self.now.header self.now.size area.old) × (area.new ≡ saved (heard_area self.now.before self.now.header self.now.size area.old) (up_record self.now.before (heard_ends self.now.before self.now.header self.now.size area.old))) }
    {
        let r = self.before;
        let j = runs::join_control(r.ends.hearing, self.header, self.size);
        let ends = Ends {
            hearing: j.next,
            ..r.ends
        };
        self.join_hearing(area);
        if !j.done {
            leave(area, r, ends);
            return call_word::quiet(j.dropped, false, 0);
        }
        self.heed(area, ends, j.base + self.size)
    }

    // By its message type: a command at the host is dropped.
    #[tactic(auto, unfolding(calls::specs::calls::Up::coming_up))]
    fn take(&self, area: &mut [u8], out: &mut [u8]) -> u64
        requires { (area_size ≤ length area.old) × (message_size ≤ length out.old) }
        ensures { outcome result area.new out.new ≡ coming_up self.now.before self.now.header self.now.size area.old out.old }
    {
        match self.header.mt {
            packets::DATA => self.take_data(area, out),
            packets::COMMAND => discard(area, self.before),
            _ => self.take_control(area),
        }
    }
}

// ---- the call

// An up that is taken.
#[tactic(auto, using(area::proofs::Moves::payload_few, calls::proofs::Words::told_none))]
pub fn act(area: &mut [u8], out: &mut [u8], r: Record) -> u64
    requires { (area_size ≤ length area.old) × (message_size ≤ length out.old) × Uppable r }
    ensures { outcome result area.new out.new ≡ upped r area.old out.old }
{
    let slot = ring::first_at(map::UP_AT, r.up);
    let Some((header, size)) = movers::read_slot(area, slot) else {
        return discard(area, r);
    };
    let coming = Coming {
        before: r,
        header,
        size,
    };
    let w = coming.take(area, out);
    call_word::telling(packets::rfu(Way::Up, header), w)
}
