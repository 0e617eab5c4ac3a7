// Both ends cold: what fresh and power leave.
ghost use Rattle.std.specs.Prelude.{◌≡◌};
ghost use Rattle.state.specs.Cold.{cold_host, cold_run, cold_controller, cold_ends};

use crate::kinds::{ControlRun, Controller, Ends, Host, Phase, Profile, Rf};
use crate::profile::LEAST_SIZE;
use crate::{conn, radio};

// No command unanswered, and none longer than the least size in a packet.
pub fn cold_host() -> Host
    ensures { result ≡ cold_host }
{
    Host {
        size: LEAST_SIZE,
        pending: None,
    }
}

// Neither reset nor initialized, and nothing found.
pub fn cold_controller() -> Controller
    ensures { result ≡ cold_controller }
{
    Controller {
        phase: Phase::Cold,
        given: 0,
        rf: Rf::Idle,
        pairs: radio::no_pairs(),
    }
}

// No control message under way.
pub fn cold_run() -> ControlRun
    ensures { result ≡ cold_run }
{
    ControlRun {
        mt: 0,
        gid: 0,
        oid: 0,
        run: conn::start(),
    }
}

// Both ends cold.
pub fn cold_ends(p: Profile) -> Ends
    ensures { result ≡ cold_ends p }
{
    Ends {
        profile: p,
        host: cold_host(),
        hearing: cold_run(),
        controller: cold_controller(),
        asking: cold_run(),
        endpoint: conn::empty_hand(),
        conns: [conn::closed_counts(); 5],
    }
}
