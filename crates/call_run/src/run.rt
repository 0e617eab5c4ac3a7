// Moves until none is left, or one has handed a message out.
ghost use Rattle.std.specs.Prelude.{◌≡◌, ◌<◌};
ghost use Rattle.calls.specs.Word.{word_of, handed_in, length_in};
ghost use Rattle.calls.specs.Outcome.{outcome};
ghost use Rattle.calls.specs.Run.{move_on, ran};
ghost use Rattle.call_run.specs.Moves.{Played};

use crate::choice;
use call_entry::enter;
use call_word::says;

// More moves than a record has, and as many as the word counts.
const LIMIT: usize = 65535;

// The word of the first move that is taken, if there is one. The record is judged anew: on a damaged bench a move can leave one
// that cannot be, and then none is taken.
fn play(area: &mut [u8], out: &mut [u8]) -> Option<u64>
    ensures { Played (move_on area.old out.old) area.old out.old result area.new out.new }
{
    let r = enter(area, out.len()).ok()?;
    let m = choice::next(area, r)?;
    Some(choice::make(area, out, r, m))
}

// The word after so many moves, from that of the last.
fn word(dropped: bool, last: u64, made: usize) -> u64
    requires { made < 65536 }
    ensures { result ≡ word_of dropped (handed_in last) (length_in last) made 0 }
{
    let handed = says::handed(last);
    let len = says::length(last);
    call_word::ran(dropped, handed, len, made)
}

// A run that is taken.
pub fn act(area: &mut [u8], out: &mut [u8]) -> u64
    ensures { outcome result area.new out.new ≡ ran area.old out.old }
{
    let mut dropped = false;
    let mut last = 0;
    for made in 0..LIMIT {
        let Some(w) = play(area, out) else {
            return word(dropped, last, made);
        };
        dropped = dropped | (says::dropped(w) == 1);
        last = w;
        if says::handed(w) {
            return word(dropped, last, made + 1);
        }
    }
    word(dropped, last, LIMIT)
}
