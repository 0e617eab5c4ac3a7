// What the controller decides on a command, or the status that it refuses with. The response, the notification and the next state
// follow from it.
ghost use Rattle.std.specs.Prelude.{◌≡◌};
ghost use Rattle.state.specs.Judgement.{octet_of};

use crate::kinds::{Pair, Rf, Terms};
use crate::names;

// What the controller decides. SetsConfig, GetsConfig: what is set and what is answered follow from the command's payload and the values
// (crate config).
#[derive(Clone, Copy)]
pub enum Verdict {
    Resets(u8),
    Initialises,
    Opens(u8, Terms),
    Closes(u8),
    Turns(Rf),
    Selects(Pair),
    Deactivates(u8, Rf),
    SetsConfig,
    GetsConfig,
}

// The status of a refusal (003, Table 129): it is answered alone, and nothing changes. The controller gives the first four; what takes
// a judgement takes any other too.
#[derive(Clone, Copy, Debug, PartialEq, Eq)]
pub enum Status {
    Rejected,
    SyntaxError,
    SemanticError,
    AlreadyStarted,
    Other(u8),
}

// The status as the octet of a response.
impl From<Status> for u8 {
    ghost from_gives = { λ s n. n ≡ octet_of s };

    fn from(s: Status) -> u8 {
        match s {
            Status::Rejected => names::REJECTED,
            Status::SyntaxError => names::SYNTAX_ERROR,
            Status::SemanticError => names::SEMANTIC_ERROR,
            Status::AlreadyStarted => names::ALREADY_STARTED,
            Status::Other(octet) => octet,
        }
    }
}
