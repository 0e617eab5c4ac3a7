// Input that comes in pieces, taken line by line.
ghost use Rattle.std.specs.Prelude.{◌≡◌, ◌<◌, ◌≤◌, [], take, length, option_copied, IfSome};
ghost use Rattle.octets.specs.Octets.{Octets};
ghost use Rattle.ascii.specs.Input.{line_after, left_of};

use crate::find::before;
use crate::write::put;
use std::marker::Model;

// A line whose end is not taken yet: the characters that it has by now, at the front of its buffer.
#[derive(Drop)]
pub struct Line<const N: usize> {
    text: [u8; N],
    held: usize,
}

// Clauses see the characters.
impl<const N: usize> Model for Line<N> {
    ghost Value = { Octets };

    ghost view = { λ l. take l.held l.text };

    ghost invariant = { λ l. l.held ≤ N };
}

impl<const N: usize> Line<N> {
    pub fn new() -> Self
        ensures { result ≡ [] }
    {
        Line {
            text: [0; N],
            held: 0,
        }
    }

    // The characters that the line has.
    pub fn text(&self) -> &[u8]
        ensures { result.now ≡ self.now }
    {
        &self.text[..self.held]
    }

    // Starts the next line.
    pub fn clear(&mut self)
        ensures { self.new ≡ [] }
    {
        self.held = 0;
    }

    // Takes the characters of a piece up to the first line feed, and the line feed, behind those that the line has already.
    // Where there is one the line is whole, and what follows it in the piece is left. What the buffer has no room for is left
    // out: a line that fills its buffer is too long.
    pub fn take<'a>(&mut self, piece: &'a [u8]) -> Option<&'a [u8]>
        ensures line { self.new ≡ line_after N self.old piece.now }
        ensures left { option_copied result ≡ left_of piece.now }
        ensures shorter { IfSome result (λ rest. length rest.now < length piece.now) }
    {
        let n = before(piece, b'\n');
        self.held = put(&mut self.text, self.held, &piece[..n]);
        piece.get(n + 1..)
    }
}
