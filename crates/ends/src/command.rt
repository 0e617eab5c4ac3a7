// A whole command at the controller (document 01, "What the controller answers").
ghost use Rattle.std.specs.Prelude.{◌≡◌, ◌≤◌, length};
ghost use Rattle.state.specs.Runs.{control_limit};
ghost use Rattle.ends.specs.Steps.{decided, Answers};

use config::table::CONFIG_SIZE;
use messages::layout;
use messages::layout::Note;
use nfcc::{controller, effects};
use state::kinds::Ends;
use state::runs::CONTROL_LIMIT;
use state::verdict::{Status, Verdict};

// The verdict on a command, and both ends' numbers after it.
#[derive(Clone, Copy)]
pub struct Decision {
    pub verdict: Result<Verdict, Status>,
    pub next: Ends,
}

// The decision, the response, and the notification after it, where there is one.
#[derive(Clone, Copy)]
pub struct Answered {
    pub decision: Decision,
    pub response: Note,
    pub notice: Option<Note>,
}

// What the controller decides on a command.
pub fn decide(e: Ends, gid: u8, oid: u8, m: &[u8]) -> Decision
    ensures { result ≡ decided e gid oid m.now }
{
    let verdict = controller::judge(e.profile, e.controller, e.conns, gid, oid, m);
    let next = Ends {
        controller: effects::controller_after(e.controller, verdict),
        endpoint: effects::endpoint_after(e.endpoint, verdict),
        conns: effects::conns_after(e.conns, verdict),
        ..e
    };
    Decision { verdict, next }
}

// What the controller answers to a command: the response goes into the first buffer, the notification into the second. b has the
// values of the parameters, m is the command's payload.
pub fn answer(
    e: Ends,
    gid: u8,
    oid: u8,
    b: &[u8; CONFIG_SIZE],
    m: &[u8],
    rsp: &mut [u8; CONTROL_LIMIT],
    ntf: &mut [u8; CONTROL_LIMIT],
) -> Answered
    requires { length m.now ≤ control_limit }
    ensures { Answers e gid oid b.now m.now (decided e gid oid m.now) result rsp.old ntf.old rsp.new ntf.new }
{
    let decision = decide(e, gid, oid, m);
    let response = layout::response(rsp, gid, oid, e.profile, b, m, decision.verdict);
    let notice = layout::notice(ntf, decision.verdict);
    Answered {
        decision,
        response,
        notice,
    }
}
