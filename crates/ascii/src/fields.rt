// A line of fields, `NAME=VALUE`, with one blank between two. A line of given fields is read from its front: `has` and
// `value` for the first, the same of what stands `after` it for the next, and `only` for the last.
ghost use Rattle.std.specs.Prelude.{◌≡◌};
ghost use Rattle.ascii.specs.Fields.{field_of, after_field, has_field, only_field, value_in};

use crate::find::{before, starts};
use octets::{octet_at, window};

// The first field.
fn first<'a>(line: &'a [u8]) -> &'a [u8]
    ensures { result.now ≡ field_of line.now }
{
    window(line, 0, before(line, b' '))
}

// What follows the first field and the blank after it: nothing where it is the last.
pub fn after<'a>(line: &'a [u8]) -> &'a [u8]
    ensures { result.now ≡ after_field line.now }
{
    window(line, before(line, b' ') + 1, line.len())
}

// Whether the first field has a name.
pub fn has(line: &[u8], name: &[u8]) -> bool
    ensures { result ≡ has_field name.now line.now }
{
    let field = first(line);
    starts(field, name) && octet_at(field, name.len()) == b'='
}

// Whether the line is one field, and has a name.
pub fn only(line: &[u8], name: &[u8]) -> bool
    ensures { result ≡ only_field name.now line.now }
{
    has(line, name) && before(line, b' ') == line.len()
}

// The value of the first field: nothing where it has another name.
pub fn value<'a>(line: &'a [u8], name: &[u8]) -> &'a [u8]
    ensures { result.now ≡ value_in name.now line.now }
{
    if !has(line, name) {
        return b"";
    }
    window(first(line), name.len() + 1, line.len())
}
