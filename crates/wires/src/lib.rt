// Packets and credits on the wires, counted from their octets.
#![tactic(auto)]

ghost use Rattle.std.specs.Prelude.{◌≡◌, ◌+◌, ◌%◌, ◌≤◌, ◌<◌, length};
ghost use Rattle.area.specs.Map.{wire_slots, wire_size};
ghost use Rattle.area.specs.Ring.{slot_in};

use area::map;
use state::kinds::Ring;

pub mod down;
pub mod up;

// The slot of the packet of index i in the ring at base, as a part of the area. Of area and ring each function asks what it needs, for
// the reasons in `area::movers` and `area::ring`.
#[tactic(auto, using(octets::proofs::Octets::cut_part))]
fn nth_slot<'a>(area: &'a [u8], base: usize, r: Ring, i: usize) -> &'a [u8]
    requires { (r.head < wire_slots) × (i < wire_slots) × (base + wire_size ≤ length area.now) }
    ensures { result.now ≡ slot_in base area.now ((r.head + i) % wire_slots) }
{
    let at = (r.head + i) % map::WIRE * map::SLOT + base;
    &area[at..at + map::SLOT]
}
