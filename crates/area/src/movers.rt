// What moves octets: packets into slots and out of them, messages into their places and to the caller. Each says the whole
// area after it; the numbers that it is called with are somebody else's decision. The area stays a slice that is asked to be long enough,
// here and in the calls, and so does the message buffer: `[u8; AREA]` excludes the longer ones that C hands in, and of a struct that
// holds the slice each clause would say that it is the same one (`ghost_name`). Sizes of packets are usizes, as the places in a message.
ghost use Rattle.std.specs.Prelude.{◌≡◌, ◌+◌, ◌≤◌, ◌<◌, length};
ghost use Rattle.octets.specs.Octets.{cut, splice};
ghost use Rattle.packets.specs.Packet.{read_of, payload_of, packet_of, carrying};
ghost use Rattle.packets.specs.Segments.{segment_at, segment_packet, segments, packets_of};
ghost use Rattle.area.specs.Map.{payload_size, slot_size, wire_slots, wire_size, message_size, area_size};
ghost use Rattle.area.specs.Ring.{free_at};
ghost use Rattle.area.specs.Movers.{zeros, puts_all};
ghost use Rattle.area.specs.Runs.{run_area};

use crate::map::{AREA, HEADER, MESSAGE, SLOT, WIRE};
use crate::ring::{free_at, put_into};
use packets::Header;
use state::kinds::{Progress, Ring};
use state::runs::fits;

// Reads the packet that a slot starts with.
pub fn read_slot(area: &[u8], slot: usize) -> Option<(Header, usize)>
    ensures { result ≡ read_of (cut slot slot_size area.now) }
{
    packets::read(octets::window(area, slot, SLOT))
}

// Writes a packet into a slot: the packet layer takes that part of the area.
#[tactic(auto, using(crate::proofs::Moves::packet_lent))]
pub fn put_packet(area: &mut [u8], slot: usize, h: Header, payload: &[u8])
    requires { (length payload.now ≤ payload_size) × (slot + slot_size ≤ length area.old) }
    ensures { area.new ≡ splice area.old slot (packet_of h payload.now) }
{
    packets::write(&mut area[slot..slot + SLOT], h, payload);
}

// Writes a segment of a message of the caller into a slot.
#[tactic(auto, using(crate::proofs::Moves::packet_lent, crate::proofs::Moves::segment_short))]
pub fn put_piece(area: &mut [u8], slot: usize, h: Header, size: usize, msg: &[u8], at: usize)
    requires { (size ≤ payload_size) × (slot + slot_size ≤ length area.old) }
    ensures { area.new ≡ splice area.old slot (segment_packet h (segment_at size msg.now at)) }
{
    packets::write_segment(&mut area[slot..slot + SLOT], h, size, msg, at);
}

// Writes a segment of a message that lies in the area into a slot. The message goes through a local array, since two parts
// of one slice cannot be borrowed at once.
pub fn put_segment(
    area: &mut [u8],
    slot: usize,
    h: Header,
    size: usize,
    from: usize,
    len: usize,
    at: usize,
)
    requires { (size ≤ payload_size) × (len ≤ message_size) × (from + len ≤ length area.old) × (slot + slot_size ≤ length area.old) }
    ensures { area.new ≡ splice area.old slot (segment_packet h (segment_at size (cut from len area.old) at)) }
{
    let mut message = [0u8; MESSAGE];
    octets::put(&mut message, 0, &area[from..from + len]);
    put_piece(area, slot, h, size, &message[0..len], at);
}

// Copies a packet from one slot to another, unchanged: from a wire to a store.
pub fn copy_slot(area: &mut [u8], from: usize, to: usize)
    requires { (from + slot_size ≤ length area.old) × (to + slot_size ≤ length area.old) }
    ensures { area.new ≡ splice area.old to (cut from slot_size area.old) }
{
    octets::copy_part(area, from, to, SLOT);
}

// Copies a data packet from one slot to another, with n credits in place of those that it carried: from a store to a wire.
#[tactic(auto, using(crate::proofs::Moves::slot_returned, octets::proofs::Octets::length_cut))]
pub fn return_slot(area: &mut [u8], from: usize, to: usize, n: u8)
    requires { (from + slot_size ≤ length area.old) × (to + slot_size ≤ length area.old) }
    ensures { area.new ≡ splice area.old to (carrying n (cut from slot_size area.old)) }
{
    copy_slot(area, from, to);
    packets::set_credits(&mut area[to..to + SLOT], n);
}

// Copies the payload of the packet in a slot to its place in a run: it is that part of the slot itself.
#[tactic(auto, using(crate::proofs::Moves::payload_part))]
pub fn join_payload(area: &mut [u8], slot: usize, n: usize, to: usize)
    requires { (n ≤ payload_size) × (slot + slot_size ≤ length area.old) × (to + n ≤ length area.old) }
    ensures { area.new ≡ splice area.old to (payload_of (cut slot slot_size area.old) n) }
{
    octets::copy_part(area, slot + HEADER, to, n);
}

// The payload of the packet in a slot joins a run that lies from base on; past the limit none of it is kept.
#[tactic(auto, using(crate::proofs::Moves::length_payload), unfolding(crate::specs::Runs::run_area))]
pub fn join_run(area: &mut [u8], base: usize, limit: usize, p: Progress, slot: usize, n: usize)
    requires { (n ≤ payload_size) × (slot + slot_size ≤ length area.old) × (base + limit ≤ length area.old) }
    ensures { area.new ≡ run_area limit base area.old p (payload_of (cut slot slot_size area.old) n) }
{
    if fits(limit, p, n) {
        join_payload(area, slot, n, base + p.len);
    }
}

// Hands out a finished message of n octets; past it the buffer keeps its own.
#[tactic(auto, using(octets::proofs::Octets::cut_part))]
pub fn hand_out(area: &[u8], from: usize, n: usize, buffer: &mut [u8])
    requires { (n ≤ length buffer.old) × (from + n ≤ length area.now) }
    ensures { buffer.new ≡ splice buffer.old 0 (cut from n area.now) }
{
    octets::put(buffer, 0, &area[from..from + n]);
}

// Takes a message of the caller into its place.
pub fn take_message(area: &mut [u8], to: usize, msg: &[u8])
    requires { to + length msg.now ≤ length area.old }
    ensures { area.new ≡ splice area.old to msg.now }
{
    octets::put(area, to, msg);
}

// Sets every octet of the area to 0.
pub fn clear(area: &mut [u8])
    requires { area_size ≤ length area.old }
    ensures { area.new ≡ splice area.old 0 (zeros area_size) }
{
    area[..AREA].fill(0);
}

// Writes all segments of a message of the caller, one after the other, into the free slots of a wire. How many they are.
pub fn put_all(area: &mut [u8], base: usize, r: Ring, h: Header, size: usize, msg: &[u8]) -> usize
    requires { (1 ≤ size) × (size ≤ payload_size) × (r.head < wire_slots) × (r.count + length (segments size msg.now) ≤ wire_slots) × (base + wire_size ≤ length area.old) }
    ensures { (result ≡ length (segments size msg.now)) × (area.new ≡ puts_all base area.old r (packets_of h size msg.now)) }
{
    let n = packets::segment_count(msg, size);
    let mut q = r;
    for k in 0..n {
        put_piece(area, free_at(base, WIRE, q), h, size, msg, k * size);
        q = put_into(q);
    }
    n
}
