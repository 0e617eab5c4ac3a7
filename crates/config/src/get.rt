// CORE_GET_CONFIG (003, Table 12): the response, and what of it would not fit.
ghost use Rattle.std.specs.Prelude.{◌≡◌, [], ◌∷◌, ◌+◌, ◌≤◌, length};
ghost use Rattle.octets.specs.Octets.{splice};
ghost use Rattle.config.specs.Table.{row_of};
ghost use Rattle.config.specs.Stored.{value_of};
ghost use Rattle.config.specs.Commands.{shown_one, shown_in, unavailable_one, unavailable_in, unavailable_count, get_rsp};

use crate::table::CONFIG_SIZE;
use crate::{stored, table};
use state::names;

// How many of the first n IDs are not known.
fn unavailable_count(m: &[u8], n: u8) -> usize
    ensures { (result ≡ unavailable_count m.now n) × (result ≤ n) }
{
    let mut unavailable: usize = 0;
    for i in 0..n {
        let r = table::row_of(octets::octet_at(m, 1 + i as usize));
        unavailable += octets::choose(r.is_some(), 0, 1) as usize;
    }
    unavailable
}

// The value of a parameter by its ID; nothing for one that is not known.
fn value_of<'a>(b: &'a [u8; CONFIG_SIZE], id: u8) -> &'a [u8]
    ensures { result.now ≡ value_of b.now (row_of id) }
{
    match table::row_of(id) {
        Some(r) => stored::value_in(b, r),
        None => &b[0..0],
    }
}

// How many octets the first n parameters take, with their IDs and lengths.
fn shown_size(b: &[u8; CONFIG_SIZE], m: &[u8], n: u8) -> usize
    ensures { result ≡ length (shown_in b.now m.now n) }
{
    let mut size: usize = 0;
    for i in 0..n {
        size += 2 + value_of(b, octets::octet_at(m, 1 + i as usize)).len();
    }
    size
}

// Writes a parameter at an index. The index after it.
fn put_shown(out: &mut [u8], at: usize, b: &[u8; CONFIG_SIZE], id: u8) -> usize
    requires { (at + length (shown_one b.now id) ≤ length out.old) × (length out.old ≤ 255) }
    ensures octets { out.new ≡ splice out.old at (shown_one b.now id) }
    ensures next { result ≡ at + length (shown_one b.now id) }
{
    let v = value_of(b, id);
    let n = v.len();
    octets::put(out, at, &[id, n as u8]);
    octets::put(out, at + 2, v);
    at + 2 + n
}

// Writes an ID that is not known at an index, with length 0; nothing for one that is. The index after it.
fn put_unavailable(out: &mut [u8], at: usize, id: u8) -> usize
    requires { at + length (unavailable_one id) ≤ length out.old }
    ensures octets { out.new ≡ splice out.old at (unavailable_one id) }
    ensures next { result ≡ at + length (unavailable_one id) }
{
    if table::row_of(id).is_some() {
        return at;
    }
    octets::put(out, at, &[id, 0x00]);
    at + 2
}

// The first n parameters, from index 2 on. The index after them.
fn all_shown(out: &mut [u8; 255], b: &[u8; CONFIG_SIZE], m: &[u8], n: u8) -> usize
    requires { 2 + length (shown_in b.now m.now n) ≤ 255 }
    ensures octets { out.new ≡ splice out.old 2 (shown_in b.now m.now n) }
    ensures next { result ≡ 2 + length (shown_in b.now m.now n) }
{
    let mut to: usize = 2;
    for i in 0..n {
        to = put_shown(out, to, b, octets::octet_at(m, 1 + i as usize));
    }
    to
}

// Those of the first n IDs that are not known, from index 2 on. The index after them.
fn all_unavailable(out: &mut [u8; 255], m: &[u8], n: u8) -> usize
    requires { 2 + length (unavailable_in m.now n) ≤ 255 }
    ensures octets { out.new ≡ splice out.old 2 (unavailable_in m.now n) }
    ensures next { result ≡ 2 + length (unavailable_in m.now n) }
{
    let mut to: usize = 2;
    for i in 0..n {
        to = put_unavailable(out, to, octets::octet_at(m, 1 + i as usize));
    }
    to
}

// A status alone. Its length.
fn alone(out: &mut [u8; 255], status: u8) -> usize
    ensures octets { out.new ≡ splice out.old 0 (status ∷ []) }
    ensures length { result ≡ 1 }
{
    octets::put(out, 0, &[status]);
    1
}

// CORE_GET_CONFIG_RSP into a buffer: its length.
pub fn get_rsp(out: &mut [u8; 255], b: &[u8; CONFIG_SIZE], m: &[u8]) -> usize
    ensures octets { out.new ≡ splice out.old 0 (get_rsp b.now m.now) }
    ensures length { result ≡ length (get_rsp b.now m.now) }
{
    let n = octets::octet_at(m, 0);
    let unavailable = unavailable_count(m, n);
    if unavailable == 0 {
        if 253 < shown_size(b, m, n) {
            return alone(out, names::MESSAGE_SIZE_EXCEEDED);
        }
        let to = all_shown(out, b, m, n);
        out[1] = n;
        out[0] = names::STATUS_OK;
        return to;
    }
    if 126 < unavailable {
        return alone(out, names::MESSAGE_SIZE_EXCEEDED);
    }
    let to = all_unavailable(out, m, n);
    out[1] = unavailable as u8;
    out[0] = names::INVALID_PARAM;
    to
}
