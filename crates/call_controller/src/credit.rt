// credit: one notice of all that is owed goes up, and nothing is owed after it.
ghost use Rattle.std.specs.Prelude.{◌≡◌, ◌+◌, ◌≤◌, length};
ghost use Rattle.octets.specs.Octets.{splice};
ghost use Rattle.state.specs.Refusal.{number_in};
ghost use Rattle.messages.specs.Layout.{owed_of, credits_message};
ghost use Rattle.messages.specs.Packets.{notice_packet};
ghost use Rattle.area.specs.Map.{area_size, slot_size};
ghost use Rattle.record.specs.Claims.{saved};
ghost use Rattle.views.specs.View.{view};
ghost use Rattle.model.specs.calls.Credit.{all_zero, credit_rules};
ghost use Rattle.calls.specs.Outcome.{Lowest};
ghost use Rattle.calls.specs.calls.Credit.{credited_record, credited_slot, credited_word, Creditable};

use area::{map, ring};
use messages::layout;
use record::write;
use state::conn;
use state::kinds::{Counts, Ends, Record};
use state::refusal::Refusal;
use state::runs::CONTROL_LIMIT;

// Whether nothing is owed on any connection.
fn none_owed(conns: [Counts; 5]) -> bool
    ensures { result ≡ all_zero (owed_of conns) }
{
    conns.iter().all(|k| conn::owing(k.controller) == 0)
}

// Why a credit is not taken: the first of the model's rules, whatever the area's octets are.
pub fn refusal(r: Record) -> Result<(), Refusal>
    ensures { Lowest (λ a. credit_rules (view a r)) (number_in result) }
{
    Refusal::TooFewSlots.when(map::WIRE <= r.up.count)?;
    Refusal::NothingToMove.when(none_owed(r.ends.conns))
}

// The record after a credit. Three contracts have `Creditable`, and no struct as its invariant: see call_host's `push::plan`.
fn plan(r: Record) -> Record
    requires { Creditable r }
    ensures { result ≡ credited_record r }
{
    let conns = conn::all_noticed(r.ends.conns);
    Record {
        ends: Ends { conns, ..r.ends },
        up: ring::put_into(r.up),
        ..r
    }
}

// The notice goes into the first free slot of the up wire, by way of a buffer.
fn put(area: &mut [u8], r: Record)
    requires { (area_size ≤ length area.old) × Creditable r }
    ensures { area.new ≡ credited_slot r area.old }
{
    let slot = ring::free_at(map::UP_AT, map::WIRE, r.up);
    let mut buffer = [0u8; CONTROL_LIMIT];
    let note = layout::credits_ntf(&mut buffer, r.ends.conns);
    crate::put_noted(area, slot, note, &buffer);
}

// A credit that is taken.
pub fn act(area: &mut [u8], r: Record) -> u64
    requires { (area_size ≤ length area.old) × Creditable r }
    ensures { (result ≡ credited_word) × (area.new ≡ saved (credited_slot r area.old) (credited_record r)) }
{
    put(area, r);
    write::encode(area, plan(r));
    call_word::puts_up(1)
}
