// air: an event of the RF field. Kinds 1-7 are notified to the host, kind 8 brings the endpoint's message. (A module has not the
// name of a crate that is used here, so it is not called air.)
ghost use Rattle.std.specs.Prelude.{◌≡◌, ◌+◌, ◌≤◌, false, length, eqb, ◌||◌};
ghost use Rattle.octets.specs.Octets.{splice};
ghost use Rattle.state.specs.Refusal.{number_in};
ghost use Rattle.messages.specs.Packets.{notice_packet};
ghost use Rattle.air.specs.Air.{event_of, kind_of, air_message};
ghost use Rattle.area.specs.Map.{slot_size, wire_slots, area_size};
ghost use Rattle.record.specs.Claims.{saved};
ghost use Rattle.record.specs.Fit.{FitRing};
ghost use Rattle.views.specs.View.{view};
ghost use Rattle.model.specs.calls.Air.{air_rules};
ghost use Rattle.calls.specs.Outcome.{Lowest};
ghost use Rattle.calls.specs.calls.Air.{speaks, aired_record, aired_slot, aired_area, aired_word, Airable};

use air::events;
use air::events::Event;
use area::{map, movers, ring};
use ends::event;
use record::write;
use state::kinds::{Profile, Record};
use state::refusal::Refusal;
use state::runs::CONTROL_LIMIT;

// Whether an endpoint speaks.
fn spoken_in(e: Option<Event>) -> bool
    ensures { result ≡ eqb (kind_of e) 8 }
{
    matches!(e, Some(Event::Endpoint))
}

// Whether it activates an endpoint.
fn activates(e: Option<Event>) -> bool
    ensures { result ≡ (eqb (kind_of e) 2 || eqb (kind_of e) 3) }
{
    matches!(e, Some(Event::Poll(_) | Event::Listen(_)))
}

// Why an event is not taken: the first of the model's rules, whatever the area's octets are.
#[tactic(auto, unfolding(calls::specs::Outcome::lowest))]
pub fn refusal(r: Record, m: &[u8]) -> Result<(), Refusal>
    ensures { Lowest (λ a. air_rules m.now (view a r)) (number_in result) }
{
    let controller = r.ends.controller;
    let e = events::event_of(m);
    let spoken = spoken_in(e);
    Refusal::OutsideLimit.when(e.is_none())?;
    Refusal::TooFewSlots.when(!spoken & (map::WIRE <= r.up.count))?;
    Refusal::InHand.when(spoken & r.ends.endpoint.full)?;
    let aired = events::judge_event(controller.rf, controller.pairs, e);
    Refusal::NotInThisState.when(aired.is_none())?;
    Refusal::WiresNotEmpty.when(activates(e) & ((r.down.count != 0) | (r.up.count != 0)))
}

// The record after an event. Four contracts have `Airable`, and no struct as its invariant: see call_host's `push::plan`.
fn plan(r: Record, m: &[u8], spoken: bool) -> Record
    requires { (spoken ≡ speaks m.now) × Airable r m.now }
    ensures { result ≡ aired_record r m.now }
{
    Record {
        ends: event::meet(r.ends, m).next,
        up: if spoken { r.up } else { ring::put_into(r.up) },
        ..r
    }
}

// The notification of an event goes into the first free slot of the up wire, by way of a buffer.
fn notify(area: &mut [u8], r: Record, m: &[u8])
    requires { (area_size ≤ length area.old) × (speaks m.now ≡ false) × Airable r m.now }
    ensures { area.new ≡ aired_slot r m.now area.old }
{
    let slot = ring::free_at(map::UP_AT, map::WIRE, r.up);
    let mut buffer = [0u8; CONTROL_LIMIT];
    if let Some(note) = events::air_message(&mut buffer, r.ends.profile, events::event_of(m), m) {
        crate::put_noted(area, slot, note, &buffer);
    }
}

// The octets that an event brings: the endpoint's message goes into its place, or the notification up.
fn carry(area: &mut [u8], r: Record, m: &[u8], spoken: bool)
    requires { (area_size ≤ length area.old) × (spoken ≡ speaks m.now) × Airable r m.now }
    ensures { area.new ≡ aired_area r m.now area.old }
{
    if spoken {
        movers::take_message(area, map::ENDPOINT_AT, octets::window(m, 1, m.len()));
    } else {
        notify(area, r, m);
    }
}

// What is answered: one packet was put up, or none.
#[tactic(auto, unfolding(calls::specs::Word::word_of, record::specs::Layout::bit))]
fn word_for(spoken: bool) -> u64
    ensures { result ≡ aired_word spoken }
{
    if spoken { 0 } else { call_word::UP_UNIT }
}

// An event that is taken.
pub fn act(area: &mut [u8], r: Record, m: &[u8]) -> u64
    requires { (area_size ≤ length area.old) × Airable r m.now }
    ensures { (result ≡ aired_word (speaks m.now)) × (area.new ≡ saved (aired_area r m.now area.old) (aired_record r m.now)) }
{
    let spoken = spoken_in(events::event_of(m));
    carry(area, r, m, spoken);
    write::encode(area, plan(r, m, spoken));
    word_for(spoken)
}
