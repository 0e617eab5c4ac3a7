// Contents of the two responses that the bench's controller writes beside a status alone, as the host asks it.
ghost use Rattle.std.specs.Prelude.{◌≡◌};
ghost use Rattle.config.specs.Written.{set_written, values_written, list_written, unavailable_written, get_written};

use crate::{set, table};
use state::names;

// CORE_SET_CONFIG_RSP.
pub fn set_written(m: &[u8]) -> bool
    ensures { result ≡ set_written m.now }
{
    let status = octets::octet_at(m, 0);
    let n = octets::octet_at(m, 1);
    let right = octets::choose(n == 0, names::STATUS_OK, names::INVALID_PARAM);
    (m.len() == 2 + (n as usize)) & (n <= 127) & (status == right)
}

// Whether the first n parameters of a list have acceptable values.
fn values_written(m: &[u8], n: u8) -> bool
    ensures { result ≡ values_written m.now n }
{
    let mut ok = true;
    let mut at: usize = 1;
    for _ in 0..n {
        let p = set::param_at(m, at);
        ok = ok & table::acceptable_by(p.id, p.value);
        at = p.next;
    }
    ok
}

// Whether a list has acceptable values and ends with the payload.
fn list_written(m: &[u8]) -> bool
    ensures { result ≡ list_written m.now }
{
    let n = octets::octet_at(m, 0);
    let values = values_written(m, n);
    (set::list_end(m, n) == m.len()) & values
}

// Whether the first n entries are IDs that are not known, each with length 0.
fn unavailable_written(m: &[u8], n: u8) -> bool
    ensures { result ≡ unavailable_written m.now n }
{
    let mut ok = true;
    for i in 0..usize::from(n) {
        let unknown = table::row_of(octets::octet_at(m, 2 + 2 * i)).is_none();
        let none = octets::octet_at(m, 3 + 2 * i);
        ok = ok & (unknown & (none == 0x00));
    }
    ok
}

// CORE_GET_CONFIG_RSP.
pub fn get_written(m: &[u8]) -> bool
    ensures { result ≡ get_written m.now }
{
    let status = octets::octet_at(m, 0);
    let n = octets::octet_at(m, 1);
    let list = list_written(octets::window(m, 1, m.len()));
    let unavailable = unavailable_written(m, n);
    if status == names::STATUS_OK {
        return (2 <= m.len()) & list;
    }
    (status == names::INVALID_PARAM) & (1 <= n) & (m.len() == 2 + 2 * (n as usize)) & unavailable
}
