// Rings of slots, by their numbers: where the first packet is, where the next goes, and the ring after it was taken or put. `Ring` has no
// invariant: a record that cannot be is read too, with whatever head and count its octets have (`decode_of`).
ghost use Rattle.std.specs.Prelude.{◌≡◌, ◌+◌, ◌^◌, ◌≤◌, ◌<◌};
ghost use Rattle.area.specs.Map.{wire_slots, wire_size, area_size};
ghost use Rattle.area.specs.Ring.{first_at, free_at, took_from, put_into};

use crate::map::SLOT;
use state::kinds::Ring;

// Where the first packet's slot starts.
pub fn first_at(base: usize, r: Ring) -> usize
    requires { (base ≤ area_size) × (r.head < wire_slots) }
    ensures { result ≡ first_at base r }
{
    r.head * SLOT + base
}

// Where the first free slot starts. Any base will do from which sixteen slots end at a number that a usize holds.
pub fn free_at(base: usize, cap: usize, r: Ring) -> usize
    requires { (base + wire_size < 2 ^ 64) × (0 < cap) × (cap ≤ wire_slots) × (r.head < wire_slots) × (r.count ≤ wire_slots) }
    ensures { result ≡ free_at base cap r }
{
    (r.head + r.count) % cap * SLOT + base
}

// The ring after its first packet is taken.
pub fn took_from(cap: usize, r: Ring) -> Ring
    requires { (0 < cap) × (r.head < wire_slots) × (0 < r.count) }
    ensures { result ≡ took_from cap r }
{
    Ring {
        head: (r.head + 1) % cap,
        count: r.count - 1,
    }
}

// The ring after a packet is put in its first free slot.
pub fn put_into(r: Ring) -> Ring
    requires { r.count < wire_slots }
    ensures { result ≡ put_into r }
{
    Ring {
        count: r.count + 1,
        ..r
    }
}
