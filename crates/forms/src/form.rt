// The form of a line, `ev=NAME arg=HEX`, and how many octets each name asks.
ghost use Rattle.std.specs.Prelude.{◌≡◌};
ghost use Rattle.forms.specs.Form.{digits_in, kind_fits, Reads};
ghost use Rattle.forms.specs.Form.{formed as Form·formed, fits as Form·fits};

use crate::ARGS;
use crate::names::{Name, name_in};
use ascii::fields::{after, has, only, value};
use ascii::hex::{decode, is_hex};
use octets::window;

// HEX.
fn digits<'a>(line: &'a [u8]) -> &'a [u8]
    ensures { result.now ≡ digits_in line.now }
{
    value(after(line), b"arg")
}

// Whether a line has the form, whatever its name.
#[tactic(auto, unfolding(crate::specs::Form::formed))]
fn formed(line: &[u8]) -> bool
    ensures { result ≡ Form·formed line.now }
{
    line.len() <= 2100 && has(line, b"ev") && only(after(line), b"arg") && is_hex(digits(line))
}

// Whether an event of a kind has octets enough, and none to spare; kinds that there are not go to the call.
#[tactic(auto, unfolding(crate::specs::Form::kind_fits))]
fn kind_fits(kind: u8, n: usize) -> bool
    ensures { result ≡ kind_fits kind n }
{
    match kind {
        0 => 1 <= n,
        1 => 5 <= n,
        2..=3 => 4 <= n,
        4..=7 => n == 1,
        _ => 1 <= n,
    }
}

// Whether a call has its fixed octets, and none to spare.
fn fits(name: Name, args: &[u8]) -> bool
    ensures { result ≡ Form·fits name args.now }
{
    let n = args.len();
    match name {
        Name::Fresh => (n == 5) | (n == 11),
        Name::Command => 2 <= n,
        Name::Send => 1 <= n,
        Name::Push | Name::Consume | Name::Report => n == 1,
        Name::Power | Name::Down | Name::Credit | Name::Reply | Name::Up | Name::Run => n == 0,
        Name::Air => kind_fits(octets::octet_at(args, 0), n),
        Name::Read => true,
        Name::Bad => false,
    }
}

// What a line asks: the name, and how many octets of arguments it has. They lie over the front of the caller's args, whose rest stays
// (`Reads`), so their number stands beside it.
#[derive(Clone, Copy)]
pub struct Asked {
    pub name: Name,
    pub count: usize,
}

// Reads a line. Its octets go over the front of args.
pub fn read_line(line: &[u8], args: &mut [u8; ARGS]) -> Asked
    ensures { Reads line.now args.old result args.new }
{
    if !formed(line) {
        return Asked {
            name: Name::Bad,
            count: 0,
        };
    }
    let count = digits(line).len() / 2;
    decode(digits(line), args);
    let name = name_in(value(line, b"ev"));
    if fits(name, window(args, 0, count)) {
        return Asked { name, count };
    }
    Asked {
        name: Name::Bad,
        count,
    }
}
