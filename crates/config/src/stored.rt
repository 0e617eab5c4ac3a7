// The values as octets of the record: one for each parameter of fixed length, and its length before one whose length varies, 0 past its end.
// `Row` has no invariant (r.most ≤ 15, say): `lead`, `size_in` and `table::acceptable` are public and take any row.
ghost use Rattle.std.specs.Prelude.{◌≡◌, ◌+◌, ◌-◌, ◌<◌, ◌≤◌, length, get_or};
ghost use Rattle.octets.specs.Octets.{splice};
ghost use Rattle.config.specs.Table.{config_size, allowed_by};
ghost use Rattle.config.specs.Stored.{lead, room, size_in, value_in, form_of, with_value, defaults, zeros, row_ok, rows_ok, parameters_ok};

use crate::table;
use crate::table::{CONFIG_SIZE, Row, Values};

// The octets before a value: its length, if that varies.
pub fn lead(r: Row) -> usize
    ensures value { result ≡ lead r }
    ensures upper_bound { result ≤ 1 }
{
    if r.least == r.most { 0 } else { 1 }
}

// How many octets a value has.
pub fn size_in(b: &[u8], r: Row) -> usize
    ensures { result ≡ size_in b.now r }
{
    if r.least == r.most {
        r.most
    } else {
        octets::octet_at(b, r.at) as usize
    }
}

// A value, as a part of the octets.
pub fn value_in<'a>(b: &'a [u8], r: Row) -> &'a [u8]
    requires { r.at ≤ config_size }
    ensures { result.now ≡ value_in b.now r }
{
    let n = size_in(b, r);
    octets::window(octets::window(b, r.at + lead(r), r.most), 0, n)
}

// A value is written, its length before it if that varies.
fn put_form(b: &mut [u8], r: Row, v: &[u8])
    requires { (r.at + room r ≤ length b.old) × (length v.now ≤ r.most) × (r.most ≤ 15) }
    ensures { b.new ≡ splice b.old r.at (form_of r v.now) }
{
    if r.least == r.most {
        octets::put(b, r.at, v);
        return;
    }
    octets::put(b, r.at, &[v.len() as u8]);
    octets::put(b, r.at + 1, v);
}

// A parameter's octets are cleared, then its value is written.
pub fn put_value(b: &mut [u8], r: Row, v: &[u8])
    requires { (r.at + room r ≤ length b.old) × (length v.now ≤ r.most) × (r.most ≤ 15) }
    ensures { b.new ≡ with_value r v.now b.old }
{
    let none = [0u8; 16];
    let before = lead(r);
    let all = before + r.most;
    octets::put(b, r.at, &none[0..all]);
    put_form(b, r, v);
}

// All values by default.
pub fn defaults() -> [u8; CONFIG_SIZE]
    ensures { result ≡ defaults }
{
    [
        0x00, 0x08, 0x00, 0x00, 0x00, 0x08, 0x01, 0x00, 0x08, 0x00, 0x00, 0x00, 0x00, 0x00, 0x00,
        0x00, 0x00, 0x00, 0x00, 0x00, 0x00, 0x00, 0x00, 0x00, 0x00, 0x00, 0x00, 0x30, 0x08, 0x01,
    ]
}

// Whether of the room of octets from index i on all past the first n are 00. It goes over the whole room, whatever n is: every call
// comes by here, and a loop of a known length is quicker.
fn clear_past(b: &[u8], i: usize, n: usize, room: usize) -> bool
    requires { (n ≤ room) × (i + room ≤ length b.now) }
    ensures { result ≡ zeros b.now (i + n) (room - n) }
{
    let mut all = true;
    for k in 0..room {
        all = all & ((k < n) | (b[i + k] == 0x00));
    }
    all
}

// Row 1 of a parameter: an acceptable value, and 00 past its end.
fn row_ok(b: &[u8; CONFIG_SIZE], r: Row) -> bool
    requires { r.at + room r ≤ config_size }
    ensures { result ≡ row_ok b.now r }
{
    let n = size_in(b, r);
    if n < r.least {
        return false;
    }
    if r.most < n {
        return false;
    }
    let v = value_in(b, r);
    table::all_allowed(r.values, v) & clear_past(b, r.at + lead(r), n, r.most)
}

// Row 1 of a parameter of one octet.
fn octet_ok(b: &[u8; CONFIG_SIZE], at: usize, values: Values) -> bool
    requires { at < config_size }
    ensures { result ≡ allowed_by values (get_or b.now at 0) }
{
    table::allowed_by(values, b[at])
}

// Row 1 of the parameters before the one whose length varies. It is not a loop over the table: every call comes by here, and a constant
// array that a variable indexes is built anew at each use.
fn front_ok(b: &[u8; CONFIG_SIZE]) -> bool
    ensures { result ≡ rows_ok b.now 9 }
{
    octet_ok(b, 0, Values::Range(0x00, 0x01))
        & octet_ok(b, 1, Values::Range(0x00, 0xFF))
        & octet_ok(b, 2, Values::Range(0x00, 0xFF))
        & octet_ok(b, 3, Values::Range(0x00, 0x01))
        & octet_ok(b, 4, Values::Range(0x00, 0xFF))
        & octet_ok(b, 5, Values::Range(0x00, 0xFF))
        & octet_ok(b, 6, Values::Range(0x01, 0x02))
        & octet_ok(b, 7, Values::Range(0x00, 0x01))
        & octet_ok(b, 8, Values::Range(0x00, 0xFF))
}

// Row 1 of all parameters.
pub fn parameters_ok(b: &[u8; CONFIG_SIZE]) -> bool
    ensures { result ≡ parameters_ok b.now }
{
    let info = row_ok(b, table::row_at(9));
    front_ok(b)
        & info
        & octet_ok(b, 25, Values::Range(0x00, 0x03))
        & octet_ok(b, 26, Values::Range(0x00, 0x01))
        & octet_ok(b, 27, Values::Range(0x00, 0xFF))
        & octet_ok(b, 28, Values::Range(0x00, 0xFF))
        & octet_ok(b, 29, Values::BitRates)
}
