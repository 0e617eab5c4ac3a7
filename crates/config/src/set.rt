// CORE_SET_CONFIG (003, Table 11): where its list ends, what it sets, and the response.
ghost use Rattle.std.specs.Prelude.{◌≡◌, [], ◌∷◌, ◌+◌, ◌≤◌, length, get_or};
ghost use Rattle.octets.specs.Octets.{pick, cut, splice};
ghost use Rattle.config.specs.Table.{config_size, default_of};
ghost use Rattle.config.specs.Stored.{room, with_value};
ghost use Rattle.config.specs.Commands.{count_in, param_at, accepted, set_one, config_after, set_rsp, names_known};

use crate::table::{CONFIG_SIZE, Row};
use crate::{stored, table};
use state::names;

// A parameter of a list: its ID, its value, and where the next one stands.
#[derive(Clone, Copy)]
pub(crate) struct Param<'a> {
    pub(crate) id: u8,
    pub(crate) value: &'a [u8],
    pub(crate) next: usize,
}

// The parameter that stands at an index. Of an octet past the end 0 is read.
pub(crate) fn param_at<'a>(m: &'a [u8], at: usize) -> Param<'a>
    requires { at ≤ 65536 }
    ensures id { result.id ≡ get_or m.now at 0 }
    ensures value { result.value.now ≡ cut (at + 2) (get_or m.now (at + 1) 0) m.now }
    ensures next { result.next ≡ at + 2 + get_or m.now (at + 1) 0 }
    ensures near { result.next ≤ at + 257 }
{
    let n = octets::octet_at(m, at + 1) as usize;
    Param {
        id: octets::octet_at(m, at),
        value: octets::window(m, at + 2, n),
        next: at + 2 + n,
    }
}

// Where the list ends after n parameters. It is whole where that is no more than the payload's length.
pub fn list_end(m: &[u8], n: u8) -> usize
    ensures { result ≡ param_at m.now n }
{
    let mut at: usize = 1;
    for _ in 0..n {
        at = param_at(m, at).next;
    }
    at
}

// Whether one of the first n parameters is known.
pub fn names_known(m: &[u8], n: u8) -> bool
    ensures { result ≡ names_known m.now n }
{
    let mut found = false;
    let mut at: usize = 1;
    for _ in 0..n {
        let p = param_at(m, at);
        found = found | table::row_of(p.id).is_some();
        at = p.next;
    }
    found
}

// A parameter is restored.
fn put_default(b: &mut [u8; CONFIG_SIZE], r: Row)
    requires { (r.at + room r ≤ config_size) × (r.least ≤ r.most) × (r.most ≤ 15) }
    ensures { b.new ≡ with_value r (default_of r) b.old }
{
    let d = [r.default];
    if r.least == 0 {
        stored::put_value(b, r, &d[0..0]);
        return;
    }
    stored::put_value(b, r, &d);
}

// A parameter of a list is set, if it is accepted.
fn set_one(b: &mut [u8; CONFIG_SIZE], id: u8, v: &[u8])
    ensures { b.new ≡ set_one id v.now b.old }
{
    let Some(r) = table::row_of(id) else {
        return;
    };
    if v.is_empty() {
        put_default(b, r);
        return;
    }
    if table::acceptable(r, v) {
        stored::put_value(b, r, v);
    }
}

// All parameters of a list are set, in the order given.
pub fn set_all(b: &mut [u8; CONFIG_SIZE], m: &[u8])
    ensures { b.new ≡ config_after b.old m.now }
{
    let mut at: usize = 1;
    for _ in 0..octets::octet_at(m, 0) {
        let p = param_at(m, at);
        set_one(b, p.id, p.value);
        at = p.next;
    }
}

// Whether a parameter of a list is accepted.
fn is_accepted(id: u8, v: &[u8]) -> bool
    ensures { result ≡ accepted id v.now }
{
    match table::row_of(id) {
        Some(r) => v.is_empty() | table::acceptable(r, v),
        None => false,
    }
}

// Writes an ID at an index, unless its parameter is accepted. The index after it.
fn put_id(out: &mut [u8], at: usize, id: u8, ok: bool) -> usize
    requires { at + 1 ≤ length out.old }
    ensures octets { out.new ≡ splice out.old at (pick ok [] (id ∷ [])) }
    ensures next { result ≡ at + length (pick ok [] (id ∷ [])) }
{
    if ok {
        return at;
    }
    octets::put(out, at, &[id]);
    at + 1
}

// CORE_SET_CONFIG_RSP into a buffer: its length. The list is whole.
pub fn set_rsp(out: &mut [u8; 255], m: &[u8]) -> usize
    requires { param_at m.now (count_in m.now) ≤ 255 }
    ensures octets { out.new ≡ splice out.old 0 (set_rsp m.now) }
    ensures length { result ≡ length (set_rsp m.now) }
{
    let mut to: usize = 2;
    let mut at: usize = 1;
    for _ in 0..octets::octet_at(m, 0) {
        let p = param_at(m, at);
        to = put_id(out, to, p.id, is_accepted(p.id, p.value));
        at = p.next;
    }
    let invalid = (to - 2) as u8;
    out[1] = invalid;
    out[0] = octets::choose(invalid == 0, names::STATUS_OK, names::INVALID_PARAM);
    to
}
