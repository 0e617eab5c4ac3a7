// Text written into the caller's buffer. Each function writes from an index on and answers the index after it; what would stand
// past the buffer's end is left out. Buffer and index stay two parameters: of a struct that holds the caller's buffer each method would
// say that it is the same buffer (`ghost_name`), in place of `at ≤ length`; one with octets of its own has no rest that `Wrote` keeps.
ghost use Rattle.std.specs.Prelude.{◌≡◌, ◌≤◌, [], ◌∷◌, length};
ghost use Rattle.ascii.specs.Digits.{hex_of, figure_of, leading_in, decimal_of};
ghost use Rattle.ascii.specs.Writing.{Wrote};

use crate::hex::digit;

// A text as it is.
#[tactic(auto, using(crate::proofs::Writing::wrote_fitting))]
pub fn put(out: &mut [u8], at: usize, text: &[u8]) -> usize
    requires { at ≤ length out.old }
    ensures { Wrote out.old at text.now result out.new }
{
    let n = text.len().min(out.len() - at);
    octets::put(out, at, &text[..n]);
    at + n
}

fn put_octet(out: &mut [u8], at: usize, octet: u8) -> usize
    requires { at ≤ length out.old }
    ensures { Wrote out.old at (hex_of (octet ∷ [])) result out.new }
{
    let pair = [digit(octet / 16), digit(octet)];
    // both in one store where there is room: `put` counts first what fits, and a copy of a counted length is a call of memcpy
    if pair.len() <= out.len() - at {
        octets::put(out, at, &pair);
        at + pair.len()
    } else {
        put(out, at, &pair)
    }
}

// Octets as pairs of digits.
pub fn put_octets(out: &mut [u8], at: usize, octets: &[u8]) -> usize
    requires { at ≤ length out.old }
    ensures { Wrote out.old at (hex_of octets.now) result out.new }
{
    let mut n = at;
    for octet in octets {
        n = put_octet(out, n, *octet);
    }
    n
}

// The digit of a number's ones.
fn figure(n: u16) -> u8
    ensures { result ≡ figure_of n }
{
    48 + (n % 10) as u8
}

// How many of a number's five digits are zeros in front.
#[tactic(auto, unfolding(crate::specs::Digits::leading_in))]
fn leading(n: u16) -> usize
    ensures { result ≡ leading_in n }
{
    match n {
        0..=9 => 4,
        10..=99 => 3,
        100..=999 => 2,
        1000..=9999 => 1,
        _ => 0,
    }
}

// A number in decimal.
pub fn put_decimal(out: &mut [u8], at: usize, n: u16) -> usize
    requires { at ≤ length out.old }
    ensures { Wrote out.old at (decimal_of n) result out.new }
{
    let from = leading(n);
    // As a map over the units it would ask for a proof that none of them is 0: the five places are plainer.
    let figures = [
        figure(n / 10000),
        figure(n / 1000),
        figure(n / 100),
        figure(n / 10),
        figure(n),
    ];
    put(out, at, &figures[from..])
}
