// A line of input to its answer. The functions write into a lent buffer, from an index on, and answer the index after it, as those of
// `ascii::write` and for its reason.
ghost use Rattle.std.specs.Prelude.{◌≤◌, length};

use ascii::fields::{after, has, only, value};
use ascii::hex::{decode, is_hex};
use ascii::write::{put, put_decimal, put_octets};
use octets::window;

// The most characters of a line.
const LONGEST: usize = 600;

// A label and octets as pairs of digits.
fn put_hex(out: &mut [u8], at: usize, label: &[u8], octets: &[u8]) -> usize
    requires { at ≤ length out.old }
    ensures { result ≤ length out.new }
{
    let n = put(out, at, label);
    put_octets(out, n, octets)
}

// A label and a number in decimal.
fn put_number(out: &mut [u8], at: usize, label: &[u8], number: u8) -> usize
    requires { at ≤ length out.old }
    ensures { result ≤ length out.new }
{
    let n = put(out, at, label);
    put_decimal(out, n, u16::from(number))
}

// What octet 1 of a packet holds.
fn put_second(out: &mut [u8], at: usize, h: packets::Header) -> usize
    requires { at ≤ length out.old }
    ensures { result ≤ length out.new }
{
    let mut n = put_hex(out, at, b" oid=", &[h.oid]);
    n = put_hex(out, n, b" credits=", &[h.credits]);
    put_hex(out, n, b" spare=", &[h.spare])
}

// The fields of a packet's header; its last octet is the stated length.
fn put_header(out: &mut [u8], at: usize, h: packets::Header, len: u8) -> usize
    requires { at ≤ length out.old }
    ensures { result ≤ length out.new }
{
    let mut n = put_number(out, at, b" read=packet mt=", h.mt);
    n = put_number(out, n, b" pbf=", u8::from(h.pbf));
    n = put_number(out, n, b" id=", h.id);
    n = put_second(out, n, h);
    put_number(out, n, b" len=", len)
}

// Whether the octets written again are the packet's, up to its stated length: its header and its payload.
fn is_same(again: &[u8], p: &[u8], payload: &[u8]) -> bool {
    window(again, 0, 3) == window(p, 0, 3) && window(again, 3, 255) == payload
}

// The fields of a packet: what reading it finds, the octets that writing it again into a slot gives, and whether they are
// the same.
fn put_packet(out: &mut [u8], at: usize, p: &[u8]) -> usize
    requires { at ≤ length out.old }
    ensures { result ≤ length out.new }
{
    let Some((h, len)) = packets::read(p) else {
        return put(out, at, b" read=drop");
    };
    let payload = packets::payload(p, len);
    let mut slot = [0u8; 258];
    let wrote = packets::write(&mut slot, h, payload).unwrap_or(0);
    let again = window(&slot, 0, wrote);
    let mut n = put_header(out, at, h, octets::octet_at(p, 2));
    n = put_hex(out, n, b" payload=", payload);
    n = put_hex(out, n, b" again=", again);
    put_number(out, n, b" same=", u8::from(is_same(again, p, payload)))
}

// Whether a line has the fields no and pkt, and a name of at least one character.
fn has_fields(line: &[u8]) -> bool {
    let named = has(line, b"no") && 0 < value(line, b"no").len();
    named && only(after(line), b"pkt")
}

// The answer to a line `no=NAME pkt=HEX`, its name and the packet's fields; `bad` to a line of another form.
pub fn answer(line: &[u8], out: &mut [u8]) -> usize
    ensures { result ≤ length out.new }
{
    let digits = value(after(line), b"pkt");
    if LONGEST < line.len() || !has_fields(line) || !is_hex(digits) {
        return put(out, 0, b"bad\n");
    }
    let mut packet = [0u8; 300];
    decode(digits, &mut packet);
    let mut n = put(out, 0, b"no=");
    n = put(out, n, value(line, b"no"));
    n = put_packet(out, n, window(&packet, 0, digits.len() / 2));
    put(out, n, b"\n")
}
