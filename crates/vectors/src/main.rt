// Packets of the standard through the packet layer. Standard input has a packet a line, as `no=001 pkt=020000`; standard
// output has for each line what reading the packet finds and what writing it again gives. tests/vectors.py makes the input
// and, by a reading and a writing of its own, the output.
#![tactic(auto)]

mod line;

use ascii::input::Line;
use octets::window;
use std::io::Read;

// One character more than a line may have: a line that fills its buffer is too long, however long it is.
const ROOM: usize = 601;

// Writes the answer to a line. A line has at most 600 characters, so that the longest answer has under 1,200: the name, the
// payload, the packet again and the names of the fields.
fn reply(rt: &impl Print, line: &[u8]) {
    let mut out = [0u8; 2048];
    let n = line::answer(line, &mut out);
    let _ = rt.write_all(window(&out, 0, n));
}

// Answers the lines that end in a piece of the input. `paper` has the same loop around other acts: one function that takes the
// act as a closure would have to promise which lines it is called with, and would be longer than both loops.
fn reply_piece(rt: &impl Print, line: &mut Line<ROOM>, piece: &[u8]) {
    let mut rest = piece;
    while let Some(left) = line.take(rest) {
        reply(rt, line.text());
        line.clear();
        rest = left;
    }
}

// At the end of the input a line without a line feed is answered too.
fn reply_last(rt: &impl Print, line: &Line<ROOM>) {
    if !line.text().is_empty() {
        reply(rt, line.text());
    }
}

// A proved loop has to end, and nothing says that the input does: the loop has more turns than any run uses up. What cannot be
// read is the end of the input.
fn main(rt: HostRuntime) {
    let mut input = rt.stdin();
    let mut chunk = [0u8; 4096];
    let mut line: Line<ROOM> = Line::new();
    for _ in 0..u64::MAX {
        let n = input.read(&mut chunk).unwrap_or(0);
        if n == 0 {
            reply_last(&rt, &line);
            return;
        }
        reply_piece(&rt, &mut line, &chunk[..n]);
    }
}
