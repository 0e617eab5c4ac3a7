// Runs in reassembly, by their numbers: how a segment joins a run, and which control packets belong together.
ghost use Rattle.std.specs.Prelude.{◌≡◌};
ghost use Rattle.state.specs.Runs.{within, same_run, run_for, joined_of, control_joined};

use crate::conn::start;
use crate::kinds::{ControlRun, Progress};
use packets::Header;

// The longest message of each kind.
pub const DATA_LIMIT: usize = 1024;

pub const CONTROL_LIMIT: usize = 255;

// The run after a segment. done: the message is whole. dropped: the run is past its limit, the drop flag. No enum: callers store next in
// every case.
#[derive(Clone, Copy)]
pub struct Joined {
    pub next: Progress,
    pub done: bool,
    pub dropped: bool,
}

#[derive(Clone, Copy)]
pub struct ControlJoined {
    pub next: ControlRun,
    pub base: usize,
    pub done: bool,
    pub dropped: bool,
}

// Whether a segment of n octets is within the limit.
pub fn fits(limit: usize, p: Progress, n: usize) -> bool
    ensures { result ≡ within limit p n }
{
    !p.lost && n <= limit && p.len <= limit - n
}

// A segment of n octets joins a run.
#[tactic(auto, unfolding(crate::specs::Runs::joined_of))]
pub fn join(limit: usize, p: Progress, more: bool, n: usize) -> Joined
    ensures { result ≡ joined_of limit p more n }
{
    if !fits(limit, p, n) {
        return Joined {
            next: Progress { len: 0, lost: more },
            done: false,
            dropped: true,
        };
    }
    let next = if more {
        Progress {
            len: p.len + n,
            lost: false,
        }
    } else {
        start()
    };
    Joined {
        next,
        done: !more,
        dropped: false,
    }
}

// Whether a control packet belongs to the run: the same MT, GID and OID.
fn same_run(r: ControlRun, h: Header) -> bool
    ensures { result ≡ same_run r h }
{
    (r.mt, r.gid, r.oid) == (h.mt, h.id, h.oid)
}

// The run that a control packet joins: another MT, GID or OID starts a new one.
pub fn run_for(r: ControlRun, h: Header) -> Progress
    ensures { result ≡ run_for r h }
{
    if same_run(r, h) { r.run } else { start() }
}

// A control packet with n octets of payload joins a run. base: the octets that stand before its own.
#[tactic(auto, unfolding(crate::specs::Runs::control_joined))]
pub fn join_control(r: ControlRun, h: Header, n: usize) -> ControlJoined
    ensures { result ≡ control_joined r h n }
{
    let p = run_for(r, h);
    let j = join(CONTROL_LIMIT, p, h.pbf, n);
    ControlJoined {
        next: ControlRun {
            mt: h.mt,
            gid: h.id,
            oid: h.oid,
            run: j.next,
        },
        base: p.len,
        done: j.done,
        dropped: j.dropped,
    }
}
