// A packet that was put on a wire, for front ends that show packets. No octet of the area changes.
ghost use Rattle.std.specs.Prelude.{◌≡◌, ◌+◌, ◌≤◌, ◌<◌, length};
ghost use Rattle.octets.specs.Octets.{cut};
ghost use Rattle.state.specs.Refusal.{number_in};
ghost use Rattle.area.specs.Map.{slot_size, wire_slots, wire_size, area_size, message_size};
ghost use Rattle.area.specs.Ring.{slot_at, trim};
ghost use Rattle.record.specs.Fit.{FitRing};
ghost use Rattle.calls.specs.Outcome.{lowest, outcome};
ghost use Rattle.calls.specs.Packet.{wire_ring, wire_at, slot_back, packet_back, packet_rules, shown_packet, Showable};

use area::map;
use octets::{octet_at, window};
use state::kinds::{Record, Ring};
use state::refusal::Refusal;

// The ring of a wire: 0 is the down wire. A number and no enum: the C interface hands it over, and `refusal` says what of it.
#[tactic(auto, unfolding(calls::specs::Packet::wire_ring))]
fn wire_ring(r: Record, wire: u8) -> Ring
    ensures { result ≡ wire_ring r wire }
{
    if wire == 0 { r.down } else { r.up }
}

// Where a wire's slots start.
#[tactic(auto, unfolding(calls::specs::Packet::wire_at))]
fn wire_at(wire: u8) -> usize
    ensures { result ≡ wire_at wire }
{
    if wire == 0 { map::DOWN_AT } else { map::UP_AT }
}

// Why no packet is read.
#[tactic(auto, unfolding(calls::specs::Outcome::lowest))]
pub fn refusal(r: Record, wire: u8, back: u8) -> Result<(), Refusal>
    ensures { number_in result ≡ lowest (packet_rules r wire back) }
{
    let k = wire_ring(r, wire);
    Refusal::OutsideLimit.when(1 < wire)?;
    Refusal::NothingToMove.when(k.count <= back as usize)
}

// Where the slot starts whose packet has so many others after it.
fn slot_back(base: usize, k: Ring, back: usize) -> usize
    requires { (base + wire_size ≤ area_size) × FitRing wire_slots k × (back < k.count) }
    ensures { result ≡ slot_at base (slot_back k back) }
{
    (k.head + (k.count - 1 - back)) % map::WIRE * map::SLOT + base
}

// The packet that a slot starts with, as a part of the area itself.
#[tactic(auto, unfolding(area::specs::Ring::trim, octets::specs::Octets::cut))]
fn packet_in<'a>(area: &'a [u8], slot: usize) -> &'a [u8]
    ensures { result.now ≡ trim (cut slot slot_size area.now) }
{
    let s = window(area, slot, map::SLOT);
    let n = octet_at(s, 2);
    window(s, 0, 3 + n as usize)
}

// The packet that has so many others after it on its wire, as a part of the area itself.
fn packet_back<'a>(area: &'a [u8], r: Record, wire: u8, back: u8) -> &'a [u8]
    requires { Showable r wire back }
    ensures { result.now ≡ packet_back r wire back area.now }
{
    let k = wire_ring(r, wire);
    let base = wire_at(wire);
    let slot = slot_back(base, k, back as usize);
    packet_in(area, slot)
}

// A packet that is read stands over the buffer's front; past it the buffer keeps its own.
pub fn act(area: &[u8], out: &mut [u8], r: Record, wire: u8, back: u8) -> u64
    requires { (message_size ≤ length out.old) × Showable r wire back }
    ensures { outcome result area.now out.new ≡ shown_packet (packet_back r wire back area.now) area.now out.old }
{
    let p = packet_back(area, r, wire, back);
    octets::put(out, 0, p);
    call_word::hands_out(p.len())
}
