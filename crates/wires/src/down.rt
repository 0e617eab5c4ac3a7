// Data on the down wire: how many packets of a ring hold data of a connection.
ghost use Rattle.std.specs.Prelude.{◌≡◌, ◌+◌, ◌≤◌, ◌<◌, length};
ghost use Rattle.octets.specs.Octets.{pick};
ghost use Rattle.area.specs.Map.{wire_slots, wire_size};
ghost use Rattle.area.specs.Ring.{trim, packets_in};
ghost use Rattle.wires.specs.Meaning.{meaning};
ghost use Rattle.wires.specs.Tally.{is_data_for, data_count};

use crate::nth_slot;
use state::kinds::Ring;

// Whether the packet that a slot starts with holds data of the connection.
#[tactic(auto, using(crate::proofs::Slots::meaning_junk))]
pub fn is_data_for(slot: &[u8], conn: u8) -> bool
    ensures { result ≡ is_data_for conn (meaning (trim slot.now)) }
{
    let Some((h, _)) = packets::read(slot) else {
        return false;
    };
    (h.mt == packets::DATA) & (h.id == conn)
}

// How many packets of the ring at base hold data of the connection.
pub fn data_count(area: &[u8], base: usize, r: Ring, conn: u8) -> usize
    requires { (r.head < wire_slots) × (r.count ≤ wire_slots) × (base + wire_size ≤ length area.now) }
    ensures { result ≡ data_count conn (packets_in base wire_slots area.now r) }
{
    let mut n = 0;
    for i in 0..r.count {
        n += is_data_for(nth_slot(area, base, r, i), conn) as usize;
    }
    n
}
