// The names of events.
ghost use Rattle.std.specs.Prelude.{◌≡◌};
ghost use Rattle.forms.specs.Names.{text_of, name_in, is_bad, is_run};

use ascii::find::same;

// What a line asks for: a call, a press of Run to rest, or nothing that there is.
// Bad stays a name, not a None: `Heard` (sheet/Told) speaks of its line too, and `Reads` of the octets of a bad line.
#[derive(Clone, Copy, PartialEq, Eq)]
pub enum Name {
    Fresh,
    Power,
    Command,
    Send,
    Push,
    Down,
    Consume,
    Credit,
    Air,
    Reply,
    Up,
    Report,
    Read,
    Bad,
    Run,
}

pub fn is_bad(name: Name) -> bool
    ensures { result ≡ is_bad name }
{
    name == Name::Bad
}

// Whether it is a press of Run to rest, whose line tells moves and no packets.
pub fn is_run(name: Name) -> bool
    ensures { result ≡ is_run name }
{
    name == Name::Run
}

// Those of the twelve calls, of reading alone, and of Run to rest.
const NAMES: [Name; 14] = [
    Name::Fresh,
    Name::Power,
    Name::Command,
    Name::Send,
    Name::Push,
    Name::Down,
    Name::Consume,
    Name::Credit,
    Name::Air,
    Name::Reply,
    Name::Up,
    Name::Report,
    Name::Read,
    Name::Run,
];

// The name that a word is.
pub fn name_in(word: &[u8]) -> Name
    ensures { result ≡ name_in word.now }
{
    NAMES
        .iter()
        .copied()
        .find(|name| same(word, name.text()))
        .unwrap_or(Name::Bad)
}

impl Name {
    // The word that it is written as.
    pub fn text(self) -> &'static [u8]
        ensures { result.now ≡ text_of self }
    {
        match self {
            Name::Fresh => b"fresh",
            Name::Power => b"power",
            Name::Command => b"command",
            Name::Send => b"send",
            Name::Push => b"push",
            Name::Down => b"down",
            Name::Consume => b"consume",
            Name::Credit => b"credit",
            Name::Air => b"air",
            Name::Reply => b"reply",
            Name::Up => b"up",
            Name::Report => b"report",
            Name::Read => b"read",
            Name::Bad => b"bad",
            Name::Run => b"run",
        }
    }
}
