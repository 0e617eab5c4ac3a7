// The paper sheet: a line of text in, a line of text out, over the caller's area and message buffer. The bench
// is called through the functions that C calls.
#![tactic(auto)]

pub mod play;
pub mod show;

ghost use Rattle.sheet.specs.Sheet.{Answers, answer_to};

use crate::play::play;
use crate::show::put_outcome;
use ascii::write::put;
use forms::ARGS;
use forms::form::read_line;
use forms::names::is_bad;

// Characters of the longest line that is printed, and a few to spare: two wires of sixteen packets and a message, in digits,
// a number of moves and a line feed.
pub const LINE: usize = 18624;

// Answers a line: writes the answer over the front of text, and says how many characters it has.
pub fn answer_line(area: &mut [u8], out: &mut [u8], line: &[u8], text: &mut [u8; LINE]) -> usize
    ensures { Answers (answer_to line.now area.old out.old) text.old result text.new area.new out.new }
{
    let mut args = [0u8; ARGS];
    let asked = read_line(line, &mut args);
    if is_bad(asked.name) {
        return put(text, 0, b"ev=bad ans=3");
    }
    let w = play(area, out, asked.name, &args[0..asked.count]);
    put_outcome(text, asked.name, w, area, out)
}
