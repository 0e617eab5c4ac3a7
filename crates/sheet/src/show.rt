// The line that an outcome prints, field by field. (text, at) as in `ascii::write`, and for its reason.
ghost use Rattle.std.specs.Prelude.{[], ◌++◌, ◌≤◌, length};
ghost use Rattle.ascii.specs.Digits.{hex_of, decimal_of};
ghost use Rattle.ascii.specs.Writing.{Wrote};
ghost use Rattle.calls.specs.Outcome.{outcome};
ghost use Rattle.calls.specs.Packet.{packet_call, handed_by};
ghost use Rattle.calls.specs.Word.{moves_in};
ghost use Rattle.sheet.specs.Show.{zero_buffer, joined, wire_shown, put_by, event_field, answer_field, drop_field, rfu_field, packet_field, message_field, moves_field, line_of};

use ascii::write::{put, put_decimal, put_octets};
use bench::exports::nci_packet;
use call_word::says;
use forms::names::{Name, is_run};
use octets::window;

// The event's name.
fn put_event(text: &mut [u8], at: usize, name: Name) -> usize
    requires { at ≤ length text.old }
    ensures { Wrote text.old at (event_field name) result text.new }
{
    let n = put(text, at, b"ev=");
    put(text, n, name.text())
}

// A label and a number.
fn put_number(text: &mut [u8], at: usize, label: &[u8], number: u16) -> usize
    requires { at ≤ length text.old }
    ensures { Wrote text.old at (label.now ++ decimal_of number) result text.new }
{
    let n = put(text, at, label);
    put_decimal(text, n, number)
}

// The event, the answer and the drop flag.
fn put_front(text: &mut [u8], at: usize, name: Name, w: u64) -> usize
    requires { at ≤ length text.old }
    ensures { Wrote text.old at (event_field name ++ answer_field w ++ drop_field w) result text.new }
{
    let mut n = put_event(text, at, name);
    n = put_number(text, n, b" ans=", u16::from(says::answer(w)));
    put_number(text, n, b" drop=", u16::from(says::dropped(w)))
}

// The reserved bits, in two digits.
fn put_rfu(text: &mut [u8], at: usize, w: u64) -> usize
    requires { at ≤ length text.old }
    ensures { Wrote text.old at (rfu_field w) result text.new }
{
    let n = put(text, at, b" rfu=");
    put_octets(text, n, &[says::rfu(w)])
}

// A packet of a wire, counted from its end: what the reader of packets hands out, and nothing where there is none.
fn put_packet(text: &mut [u8], at: usize, area: &[u8], wire: u8, back: u8) -> usize
    requires { at ≤ length text.old }
    ensures { Wrote text.old at (hex_of (joined (handed_by (packet_call area.now (zero_buffer back) wire back)))) result text.new }
{
    let mut buffer = [0u8; 1024];
    let w = nci_packet(area, &mut buffer, wire, back);
    if says::handed(w) {
        return put_octets(text, at, window(&buffer, 0, says::length(w)));
    }
    at
}

// The last n packets of a wire, in their order.
fn put_wire(text: &mut [u8], at: usize, area: &[u8], wire: u8, n: u8) -> usize
    requires { at ≤ length text.old }
    ensures { Wrote text.old at (hex_of (wire_shown wire n area.now)) result text.new }
{
    let mut next = at;
    // As `(0..n).rev()` the loop has no law in std that says which numbers it gives.
    for i in 0..n {
        next = put_packet(text, next, area, wire, n - 1 - i);
    }
    next
}

// The octets put on wires: down, then up.
fn put_wires(text: &mut [u8], at: usize, w: u64, area: &[u8]) -> usize
    requires { at ≤ length text.old }
    ensures { Wrote text.old at (hex_of (put_by (outcome w area.now []))) result text.new }
{
    let n = put_wire(text, at, area, 0, says::down(w));
    put_wire(text, n, area, 1, says::up(w))
}

// The same as a field, which a press leaves empty.
fn put_packets(text: &mut [u8], at: usize, name: Name, w: u64, area: &[u8]) -> usize
    requires { at ≤ length text.old }
    ensures { Wrote text.old at (packet_field name (outcome w area.now [])) result text.new }
{
    let n = put(text, at, b" pkt=");
    if is_run(name) {
        return n;
    }
    put_wires(text, n, w, area)
}

// The message handed out: nothing for none, a dash for an empty one.
fn put_message(text: &mut [u8], at: usize, w: u64, out: &[u8]) -> usize
    requires { at ≤ length text.old }
    ensures { Wrote text.old at (message_field (outcome w [] out.now)) result text.new }
{
    let n = put(text, at, b" msg=");
    if !says::handed(w) {
        return n;
    }
    let message = window(out, 0, says::length(w));
    if message.is_empty() {
        return put(text, n, b"-");
    }
    put_octets(text, n, message)
}

// How many moves a press made. No other line has the field.
fn put_moves(text: &mut [u8], at: usize, name: Name, w: u64) -> usize
    requires { at ≤ length text.old }
    ensures { Wrote text.old at (moves_field name (moves_in w)) result text.new }
{
    if is_run(name) {
        return put_number(text, at, b" moves=", says::moves(w) as u16);
    }
    at
}

// The whole line.
pub fn put_outcome(text: &mut [u8], name: Name, w: u64, area: &[u8], out: &[u8]) -> usize
    ensures { Wrote text.old 0 (line_of name (outcome w area.now out.now)) result text.new }
{
    let mut n = put_front(text, 0, name, w);
    n = put_rfu(text, n, w);
    n = put_packets(text, n, name, w, area);
    n = put_message(text, n, w, out);
    put_moves(text, n, name, w)
}
