// down: the controller takes the first down packet, stores data and answers a command when it is whole.
ghost use Rattle.std.specs.Prelude.{◌≡◌, ◌&&◌, ◌+◌, ◌≤◌, ◌<◌, length, eqb, leb, true, false, IfSome, Some};
ghost use Rattle.octets.specs.Octets.{splice};
ghost use Rattle.state.specs.Conn.{place_of, open_at};
ghost use Rattle.state.specs.Refusal.{number_in};
ghost use Rattle.area.specs.Map.{area_size, slot_size, payload_size, control_size, wire_slots, store_slots, places, up_at};
ghost use Rattle.area.specs.Ring.{free_at};
ghost use Rattle.area.specs.Movers.{puts_all};
ghost use Rattle.nfcc.specs.Controller.{config_by};
ghost use Rattle.record.specs.Layout.{config_octets, configured};
ghost use Rattle.record.specs.Fit.{FitRing};
ghost use Rattle.record.specs.Plan.{with_ends};
ghost use Rattle.views.specs.View.{view};
ghost use Rattle.model.specs.calls.Down.{down_rules};
ghost use Rattle.record.specs.Claims.{saved};
ghost use Rattle.calls.specs.Word.{word_of};
ghost use Rattle.calls.specs.Outcome.{lowest, ComesTo};
ghost use Rattle.calls.specs.calls.Down.{took_down, controller_side, stored_record, stored_slot, data_down, joined_area, note_packet, note_packets, command_in, answered, command_down, arrived, downed, Arrivable, Downable};

use area::{map, movers, ring};
use ends::command;
use messages::layout::Note;
use nfcc::effects;
use packets::{Header, Way};
use record::{parameters, write};
use state::kinds::{ControllerSide, Ends, Record, Ring};
use state::refusal::Refusal;
use state::verdict::{Status, Verdict};
use state::{conn, runs};

// ---- what refuses it

// Whether the packet is data of an open connection whose store is full.
#[tactic(auto, unfolding(state::specs::Conn::open_at))]
fn store_full(r: Record, h: Header) -> bool
    ensures { result ≡ (eqb h.mt 0 && open_at r.ends.conns h.id && leb store_slots (controller_side r h.id).store.count) }
{
    let side = conn::counts_of(r.ends.conns, h.id).controller;
    (h.mt == packets::DATA) & side.opened & (map::STORE <= side.store.count)
}

// Why a down is not taken: the first of the model's rules. Of an empty wire there is no packet to read. Not inlined, so that its stack
// is free again before a packet is taken.
#[inline(never)]
pub fn refusal(area: &[u8], r: Record) -> Result<(), Refusal>
    requires { FitRing wire_slots r.down }
    ensures { number_in result ≡ lowest (down_rules (view area.now r)) }
{
    Refusal::NothingToMove.when(r.down.count == 0)?;
    let slot = ring::first_at(map::DOWN_AT, r.down);
    let Some((h, _)) = movers::read_slot(area, slot) else {
        return Ok(());
    };
    Refusal::TooFewSlots.when((h.mt == packets::COMMAND) & !h.pbf & (map::WIRE - 2 < r.up.count))?;
    Refusal::StoreFull.when(store_full(r, h))
}

// ---- the record after it

// The record with the first packet off the wire.
fn took(r: Record) -> Record
    requires { (r.down.head < wire_slots) × (0 < r.down.count) }
    ensures { result ≡ took_down r }
{
    Record {
        down: ring::took_from(map::WIRE, r.down),
        ..r
    }
}

// The packet is dropped: nothing but the drop flag. A function of the record, since a packet that cannot be read has no header for an
// `Arrival`.
fn dropped(area: &mut [u8], t: Record) -> u64
    requires { area_size ≤ length area.old }
    ensures { (result ≡ word_of true false 0 0 0) × (area.new ≡ saved area.old t) }
{
    write::encode(area, t);
    call_word::drops()
}

// ---- answers

// A control message of the controller is one packet, in the first free slot of the up wire.
#[tactic(auto, using(calls::proofs::DownAnswer::cut_few))]
fn put_note(area: &mut [u8], up: Ring, mt: u8, note: Note, m: &[u8])
    requires { (area_size ≤ length area.old) × FitRing wire_slots up × (note.len ≤ control_size) }
    ensures { area.new ≡ splice area.old (free_at up_at wire_slots up) (note_packet mt note m.now) }
{
    let h = Header {
        mt,
        pbf: false,
        id: note.gid,
        oid: note.oid,
        credits: 0,
        spare: 0,
    };
    let slot = ring::free_at(map::UP_AT, map::WIRE, up);
    movers::put_packet(area, slot, h, octets::window(m, 0, note.len));
}

// The response, and the notification after it where there is one. How many packets they are.
#[tactic(auto, unfolding(area::specs::Movers::puts_all, calls::specs::calls::Down::note_packets))]
fn put_answers(
    area: &mut [u8],
    up: Ring,
    response: Note,
    rsp: &[u8],
    notice: Option<Note>,
    ntf: &[u8],
) -> usize
    requires { (area_size ≤ length area.old) × FitRing wire_slots up × (up.count + 2 ≤ wire_slots) × (response.len ≤ control_size) × IfSome notice (λ n. n.len ≤ control_size) }
    ensures { (result ≡ length (note_packets response rsp.now notice ntf.now)) × (area.new ≡ puts_all up_at area.old up (note_packets response rsp.now notice ntf.now)) }
{
    put_note(area, up, packets::RESPONSE, response, rsp);
    match notice {
        None => 1,
        Some(notice) => {
            put_note(area, ring::put_into(up), packets::NOTIFICATION, notice, ntf);
            2
        }
    }
}

// The configuration after the verdict v on the command m, in place of the one before it. It goes through a local array, since it is
// read and written.
fn settle(area: &mut [u8], m: &[u8], v: Result<Verdict, Status>)
    requires { area_size ≤ length area.old }
    ensures { area.new ≡ configured area.old (config_by (config_octets area.old) m.now v) }
{
    let mut b = *parameters::values_of(area);
    effects::config_by(&mut b, m, v);
    parameters::put_values(area, &b);
}

// ---- the packet

// A packet that was read, with the record after it is off the wire: where its slot starts, its header, and how many octets its payload
// has.
#[derive(Clone, Copy)]
struct Arrival {
    after: Record,
    slot: usize,
    header: Header,
    size: usize,
    ghost able: { Arrivable after.ends.conns after.up header },
    ghost inside: { slot + slot_size ≤ area_size },
    ghost few: { size ≤ payload_size },
}

impl Arrival {
    // The controller's side of its connection.
    fn side(&self) -> ControllerSide
        ensures { result ≡ controller_side self.now.after self.now.header.id }
    {
        conn::counts_of(self.after.ends.conns, self.header.id).controller
    }

    // ---- data

    // The record with a packet more in the connection's store.
    fn stored(&self) -> Record
        requires { (controller_side self.now.after self.now.header.id).store.count < store_slots }
        ensures { result ≡ stored_record self.now.after self.now.header.id }
    {
        let t = self.after;
        let side = self.side();
        let next = ControllerSide {
            store: ring::put_into(side.store),
            ..side
        };
        let ends = Ends {
            conns: conn::with_controller(t.ends.conns, self.header.id, next),
            ..t.ends
        };
        Record { ends, ..t }
    }

    // The packet's slot is copied into the first free slot of the connection's store.
    fn store(&self, area: &mut [u8])
        requires { (area_size ≤ length area.old) × (open_at self.now.after.ends.conns self.now.header.id ≡ true) }
        ensures { area.new ≡ stored_slot self.now.after self.now.slot self.now.header.id area.old }
    {
        let base = map::store_at(conn::place_of(self.header.id));
        let free = ring::free_at(base, map::STORE, self.side().store);
        movers::copy_slot(area, self.slot, free);
    }

    // A data packet is stored, or dropped if its connection isn't open.
    #[tactic(auto, unfolding(state::specs::Conn::open_at, calls::specs::calls::Down::data_down, calls::specs::Word::word_of, record::specs::Layout::bit))]
    fn take_data(&self, area: &mut [u8]) -> u64
        requires { (area_size ≤ length area.old) × (self.now.header.mt ≡ 0) }
        ensures { ComesTo result area.new (data_down self.now.after self.now.slot self.now.header.id area.old) }
    {
        if !self.side().opened {
            return dropped(area, self.after);
        }
        self.store(area);
        write::encode(area, self.stored());
        0
    }

    // ---- commands

    // The packet's payload joins the controller's run.
    fn join(&self, area: &mut [u8])
        requires { area_size ≤ length area.old }
        ensures { area.new ≡ joined_area self.now.after.ends.asking self.now.slot self.now.header self.now.size area.old }
    {
        let run = runs::run_for(self.after.ends.asking, self.header);
        movers::join_run(
            area,
            map::ASKING_AT,
            map::CONTROL,
            run,
            self.slot,
            self.size,
        );
    }

    // A whole command of len octets, which stand in the area, is answered. It goes through a local array, since the answer goes
    // into the area.
    fn answer(&self, area: &mut [u8], ends: Ends, len: usize) -> u64
        requires { (area_size ≤ length area.old) × (len ≤ control_size) × (self.now.after.up.count + 2 ≤ wire_slots) }
        ensures { ComesTo result area.new (answered (with_ends ends self.now.after) self.now.header (command_in len area.old) area.old) }
    {
        let h = self.header;
        let up = self.after.up;
        let mut m = [0u8; 255];
        let mut rsp = [0u8; 255];
        let mut ntf = [0u8; 255];
        movers::hand_out(area, map::ASKING_AT, len, &mut m);
        let a = command::answer(
            ends,
            h.id,
            h.oid,
            parameters::values_of(area),
            &m[0..len],
            &mut rsp,
            &mut ntf,
        );
        let n = put_answers(area, up, a.response, &rsp, a.notice, &ntf);
        settle(area, &m[0..len], a.decision.verdict);
        let next = Record {
            ends: a.decision.next,
            up: Ring {
                count: up.count + n,
                ..up
            },
            ..self.after
        };
        write::encode(area, next);
        call_word::puts_up(n)
    }

    // A command's segment joins its run; a whole command is answered, one past its limit is not.
    #[tactic(auto, unfolding(calls::specs::calls::Down::command_down), using(state::proofs::Progress::control_base, state::proofs::Progress::control_room, calls::proofs::DownCommand::control_last, area::proofs::Moves::length_run))]
    fn take_command(&self, area: &mut [u8]) -> u64
        requires { (area_size ≤ length area.old) × (self.now.header.mt ≡ 1) }
        ensures { ComesTo result area.new (command_down self.now.after self.now.slot self.now.header self.now.size area.old) }
    {
        let t = self.after;
        let j = runs::join_control(t.ends.asking, self.header, self.size);
        let ends = Ends {
            asking: j.next,
            ..t.ends
        };
        self.join(area);
        if j.done {
            return self.answer(area, ends, j.base + self.size);
        }
        write::encode(area, Record { ends, ..t });
        call_word::quiet(j.dropped, false, 0)
    }

    // By its message type: commands and data aside, it is dropped.
    #[tactic(auto, unfolding(calls::specs::calls::Down::arrived))]
    fn take(&self, area: &mut [u8]) -> u64
        requires { area_size ≤ length area.old }
        ensures { ComesTo result area.new (arrived self.now.after self.now.slot (Some (self.now.header, self.now.size)) area.old) }
    {
        match self.header.mt {
            packets::DATA => self.take_data(area),
            packets::COMMAND => self.take_command(area),
            _ => dropped(area, self.after),
        }
    }
}

// ---- the call

// A down that is taken.
#[tactic(auto, unfolding(calls::specs::calls::Down::arrived), using(area::proofs::Moves::payload_few, calls::proofs::Words::told_none))]
pub fn act(area: &mut [u8], r: Record) -> u64
    requires { (area_size ≤ length area.old) × Downable r area.old }
    ensures { ComesTo result area.new (downed r area.old) }
{
    let slot = ring::first_at(map::DOWN_AT, r.down);
    let Some((header, size)) = movers::read_slot(area, slot) else {
        return dropped(area, took(r));
    };
    let arrival = Arrival {
        after: took(r),
        slot,
        header,
        size,
    };
    let w = arrival.take(area);
    call_word::telling(packets::rfu(Way::Down, header), w)
}
