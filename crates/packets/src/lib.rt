// The packet layer of NCI 2.0 (003, 3.4): a packet's header is read, its payload is handed out as a part of the packet
// itself, and a packet is written straight into the slot that the caller passes.
#![tactic(auto)]

ghost use Rattle.std.specs.Prelude.{◌≡◌, ◌+◌, ◌*◌, ◌/◌, ◌%◌, ◌≤◌, length, ltb};
ghost use Rattle.packets.specs.Packet.{octet0, octet1, oid_of, carried_of, spare_of, read_of, payload_of, carrying, Written};
ghost use Rattle.packets.specs.Reserved.{rfu_of};
ghost use Rattle.packets.specs.Segments.{segments, segment_at, marked, body, flag};

// Message types (003, Table 2). 4 to 7 are RFU. Numbers, since the contract of `write` takes any u8 for one: an enum is narrower.
pub const DATA: u8 = 0;

pub const COMMAND: u8 = 1;

pub const RESPONSE: u8 = 2;

pub const NOTIFICATION: u8 = 3;

// A packet's header. mt: message type. pbf: packet boundary flag, true where more of the message follows. id: GID, or
// for data the Conn ID. oid: for control packets, 0 for data. credits: for data the credits that it carries (CR), 0 for
// control packets. spare: the other bits of octet 1, in their places; a writer leaves them 0.
#[derive(Clone, Copy)]
pub struct Header {
    pub mt: u8,
    pub pbf: bool,
    pub id: u8,
    pub oid: u8,
    pub credits: u8,
    pub spare: u8,
}

// Which way a packet goes: down to the controller, or up to the host.
#[derive(Clone, Copy)]
pub enum Way {
    Down,
    Up,
}

// The OID that octet 1 holds for a message type.
#[tactic(auto, unfolding(crate::specs::Packet::oid_of))]
fn oid_of(mt: u8, second: u8) -> u8
    ensures { result ≡ oid_of mt second }
{
    if mt == DATA { 0 } else { second % 64 }
}

// The credits that it holds for a message type.
#[tactic(auto, unfolding(crate::specs::Packet::carried_of))]
fn carried_of(mt: u8, second: u8) -> u8
    ensures { result ≡ carried_of mt second }
{
    if mt == DATA { second % 4 } else { 0 }
}

// Its other bits.
#[tactic(auto, unfolding(crate::specs::Packet::spare_of))]
fn spare_of(mt: u8, second: u8) -> u8
    ensures { result ≡ spare_of mt second }
{
    if mt == DATA {
        second / 4 * 4
    } else {
        second / 64 * 64
    }
}

// Reads a packet: its header and the length of its payload. Too short for its header or its stated length, or of an RFU
// message type, it is to be dropped; octets past its length are ignored.
#[tactic(auto, unfolding(crate::specs::Packet::read_of, crate::specs::Packet::header_of))]
pub fn read(p: &[u8]) -> Option<(Header, usize)>
    ensures { result ≡ read_of p.now }
{
    if p.len() < 3 {
        return None;
    }
    let mt = p[0] / 32;
    if 4 <= mt {
        return None;
    }
    let len = p[2] as usize;
    if p.len() - 3 < len {
        return None;
    }
    let h = Header {
        mt,
        pbf: p[0] / 16 % 2 == 1,
        id: p[0] % 16,
        oid: oid_of(mt, p[1]),
        credits: carried_of(mt, p[1]),
        spare: spare_of(mt, p[1]),
    };
    Some((h, len))
}

// The payload of a packet, as a part of the packet itself; len is what reading found.
pub fn payload<'a>(p: &'a [u8], len: usize) -> &'a [u8]
    ensures { result.now ≡ payload_of p.now len }
{
    octets::window(p, 3, len)
}

#[tactic(auto, unfolding(crate::specs::Packet::octet0))]
fn first_octet(mt: u8, pbf: bool, id: u8) -> u8
    ensures { result ≡ octet0 mt pbf id }
{
    if pbf {
        mt % 8 * 32 + 16 + id % 16
    } else {
        mt % 8 * 32 + id % 16
    }
}

#[tactic(auto, unfolding(crate::specs::Packet::octet1))]
fn second_octet(mt: u8, oid: u8, credits: u8) -> u8
    ensures { result ≡ octet1 mt oid credits }
{
    if mt == DATA { credits % 4 } else { oid % 64 }
}

// Writes a packet over the front of the slot. The number of octets written; none, with the slot as it was, where the payload
// is over 255 octets or the packet does not fit.
#[tactic(auto, using(crate::proofs::Packet::packet_stored), unfolding(crate::specs::Packet::slot_after, crate::specs::Packet::size_after))]
pub fn write(slot: &mut [u8], h: Header, payload: &[u8]) -> Option<usize>
    ensures { Written slot.old h payload.now result slot.new }
{
    let n = payload.len();
    if 255 < n || slot.len() < 3 + n {
        return None;
    }
    slot[0] = first_octet(h.mt, h.pbf, h.id);
    slot[1] = second_octet(h.mt, h.oid, h.credits);
    slot[2] = n as u8;
    octets::put(slot, 3, payload);
    Some(3 + n)
}

// Octet 1 of a data packet with n credits in place of those that it has.
fn recredited(second: u8, n: u8) -> u8
    ensures { result ≡ second / 4 * 4 + n % 4 }
{
    second / 4 * 4 + n % 4
}

// Puts n credits into a data packet that is passed on, in place of those that it carried.
#[tactic(auto, using(crate::proofs::Packet::carrying_stored, crate::proofs::Packet::carrying_short))]
pub fn set_credits(p: &mut [u8], n: u8)
    ensures { p.new ≡ carrying n p.old }
{
    if 1 < p.len() {
        p[1] = recredited(p[1], n);
    }
}

// The reserved bits of octet 1 that a sender left at 1, in their places, from the header that was read: going down those of the
// credits too, which data carries only going up.
pub fn rfu(way: Way, h: Header) -> u8
    ensures { result ≡ rfu_of way h }
{
    match way {
        Way::Down => recredited(h.spare, h.credits),
        Way::Up => h.spare,
    }
}

// Whether another segment follows the one of size octets at index at of a message of n octets.
pub fn follows(n: usize, at: usize, size: usize) -> bool
    ensures { result ≡ ltb (at + size) n }
{
    size < n.saturating_sub(at)
}

// How many segments a message has: an empty one has one too.
#[tactic(auto, using(crate::proofs::Segments::segments_count))]
pub fn segment_count(msg: &[u8], size: usize) -> usize
    requires { 1 ≤ size }
    ensures { result ≡ length (segments size msg.now) }
{
    msg.len().div_ceil(size).max(1)
}

// Writes the segment of msg that starts at index at into the slot, as a packet with the header h and the boundary flag of
// that segment. The segment is handed on as a part of the message.
#[tactic(auto, using(crate::proofs::Segments::flag_segment, crate::proofs::Segments::body_segment))]
pub fn write_segment(
    slot: &mut [u8],
    h: Header,
    size: usize,
    msg: &[u8],
    at: usize,
) -> Option<usize>
    ensures { Written slot.old (marked h (flag (segment_at size msg.now at))) (body (segment_at size msg.now at)) result slot.new }
{
    let h = Header {
        pbf: follows(msg.len(), at, size),
        ..h
    };
    write(slot, h, octets::window(msg, at, size))
}
