// command: all segments of a command go on the down wire.
ghost use Rattle.std.specs.Prelude.{◌≡◌, ◌+◌, ◌≤◌, length, ltb};
ghost use Rattle.state.specs.Refusal.{number_in};
ghost use Rattle.area.specs.Map.{wire_slots, area_size};
ghost use Rattle.record.specs.Claims.{saved};
ghost use Rattle.views.specs.View.{view};
ghost use Rattle.model.specs.calls.Command.{command_rules};
ghost use Rattle.calls.specs.Outcome.{Lowest};
ghost use Rattle.calls.specs.calls.Command.{commanded_count, commanded_record, commanded_slots, commanded_word, Commandable};

use area::{map, movers};
use dh::host::is_busy;
use dh::sending;
use packets::Header;
use record::write;
use state::kinds::{Ends, Record, Ring};
use state::refusal::Refusal;

// Why a command is not taken: the first of the model's rules, whatever the area's octets are.
#[tactic(auto, unfolding(calls::specs::Outcome::lowest), using(calls::proofs::Command::command_tests_law))]
pub fn refusal(r: Record, gid: u8, oid: u8, payload: &[u8]) -> Result<(), Refusal>
    requires { 1 ≤ r.ends.host.size }
    ensures { Lowest (λ a. command_rules gid oid payload.now (view a r)) (number_in result) }
{
    let n = packets::segment_count(payload, r.ends.host.size as usize);
    Refusal::OutsideLimit.when((15 < gid) | (63 < oid) | (map::PAYLOAD < payload.len()))?;
    Refusal::TooFewSlots.when(map::WIRE < r.down.count.saturating_add(n))?;
    Refusal::Unanswered.when(is_busy(r.ends.host.pending))
}

// The record after a command of n segments.
fn plan(r: Record, gid: u8, oid: u8, payload: &[u8], n: usize) -> Record
    requires { (n ≡ commanded_count r payload.now) × (r.down.count + n ≤ wire_slots) }
    ensures { result ≡ commanded_record r gid oid payload.now }
{
    let host = sending::commanded(r.ends.host, gid, oid, payload);
    Record {
        ends: Ends { host, ..r.ends },
        down: Ring {
            count: r.down.count + n,
            ..r.down
        },
        ..r
    }
}

// The packets go into the free slots of the down wire. How many they are.
fn put(area: &mut [u8], r: Record, gid: u8, oid: u8, payload: &[u8]) -> usize
    requires { (area_size ≤ length area.old) × Commandable r gid oid payload.now }
    ensures { (result ≡ commanded_count r payload.now) × (area.new ≡ commanded_slots r gid oid payload.now area.old) }
{
    let size = r.ends.host.size as usize;
    let header = Header {
        mt: packets::COMMAND,
        pbf: false,
        id: gid,
        oid,
        credits: 0,
        spare: 0,
    };
    movers::put_all(area, map::DOWN_AT, r.down, header, size, payload)
}

// A command that is taken.
pub fn act(area: &mut [u8], r: Record, gid: u8, oid: u8, payload: &[u8]) -> u64
    requires { (area_size ≤ length area.old) × Commandable r gid oid payload.now }
    ensures { (result ≡ commanded_word r payload.now) × (area.new ≡ saved (commanded_slots r gid oid payload.now area.old) (commanded_record r gid oid payload.now)) }
{
    let n = put(area, r, gid, oid, payload);
    write::encode(area, plan(r, gid, oid, payload, n));
    call_word::puts_down(n)
}
