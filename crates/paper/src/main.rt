// The paper sheet as a program: lines of calls on standard input, a line of answer for each on standard output, written as
// soon as the line feed is read. It starts with a fresh bench. What it cannot read or write it says on standard error, and
// ends: its exit status says nothing of that, so `play` gives one where anything but the note on lines was said.
#![tactic(auto)]

use ascii::input::Line;
use ascii::write::put;
use bench::exports::nci_fresh;
use octets::window;
use sheet::{LINE, answer_line};
use std::io::Read;

// One character more than a line may have: a line that fills its buffer is too long, however long it is.
const ROOM: usize = 2101;

// What the program goes by: the bench and its message buffer, the line that is read by now, and whether the note on lines of
// another form has been written, which is written once.
#[derive(Drop)]
struct Play {
    area: [u8; 36864],
    out: [u8; 1024],
    line: Line<ROOM>,
    noted: bool,
}

impl Play {
    // A fresh bench, and nothing read.
    fn new() -> Self {
        let mut area = [0u8; 36864];
        let mut out = [0u8; 1024];
        nci_fresh(&mut area, &mut out, &[0x20, 4, 2, 4, 1]);
        Play {
            area,
            out,
            line: Line::new(),
            noted: false,
        }
    }

    // Writes the answer to the line, and says whether it could.
    fn answer(&mut self, rt: &(impl Print + Eprint)) -> bool {
        let mut text = [0u8; LINE];
        let n = answer_line(&mut self.area, &mut self.out, self.line.text(), &mut text);
        let end = put(&mut text, n, b"\n");
        match rt.write_all(window(&text, 0, end)) {
            Ok(()) => true,
            Err(e) => {
                let _ = eprintln!(rt; "paper: an answer is lost: {e}");
                false
            }
        }
    }

    // Answers the lines that end in a piece of the input, as long as someone takes the answers: whether there still is. A foreign
    // line is a bad line as any other; the first is noted.
    fn piece(&mut self, rt: &(impl Print + Eprint), piece: &[u8]) -> bool {
        let mut rest = piece;
        while let Some(left) = self.line.take(rest) {
            let open = self.answer(rt);
            self.noted = self.noted || note_foreign(rt, self.line.text());
            if !open {
                return false;
            }
            self.line.clear();
            rest = left;
        }
        true
    }

    // Reads what there is, and answers its lines: whether there is more to read, and someone to write to. At the end of the
    // input a last line without a line feed is answered too.
    fn more(&mut self, rt: &(impl Print + Eprint), input: &mut impl Read) -> bool {
        let mut chunk = [0u8; 4096];
        match input.read(&mut chunk) {
            Ok(0) => {}
            Ok(n) => return self.piece(rt, &chunk[..n]),
            Err(e) => {
                let _ = eprintln!(rt; "paper: the input cannot be read: {e}");
            }
        }
        if !self.line.text().is_empty() {
            self.answer(rt);
        }
        false
    }
}

// Says of a line that it ends in CRLF, or begins with a BOM, as an editor leaves them and no candidate types them; and
// whether it said so.
fn note_foreign(rt: &impl Eprint, line: &[u8]) -> bool {
    if line.ends_with(b"\r") {
        let _ = eprintln!(rt; "paper: note: lines end in CRLF; README.md says how to convert them");
        return true;
    }
    if line.starts_with(b"\xEF\xBB\xBF") {
        let _ = eprintln!(rt;
            "paper: note: the paper has a BOM; README.md says how to take it off"
        );
        return true;
    }
    false
}

// A proved loop has to end, and nothing says that the input does: the loop has more turns than any run uses up.
fn main(rt: HostRuntime) {
    let mut input = rt.stdin();
    let mut play = Play::new();
    for _ in 0..u64::MAX {
        if !play.more(&rt, &mut input) {
            return;
        }
    }
}
