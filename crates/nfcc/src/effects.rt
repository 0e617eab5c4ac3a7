// What a verdict does: to the controller's numbers, to the connections, to the endpoint's message, and to the configuration parameters.
ghost use Rattle.std.specs.Prelude.{◌≡◌, eqb};
ghost use Rattle.octets.specs.Octets.{pick};
ghost use Rattle.state.specs.Conn.{empty};
ghost use Rattle.config.specs.Stored as values;
ghost use Rattle.nfcc.specs.Controller.{turned, controller_after, conns_after, endpoint_after, config_by};

use config::set::set_all;
use config::stored::defaults;
use config::table::CONFIG_SIZE;
use state::conn::{controller_all_closed, controller_closed_at, controller_opened_at, empty_hand};
use state::kinds::{Controller, Counts, Hand, Phase, Rf};
use state::radio::{is_idle, no_pairs};
use state::verdict::{Status, Verdict};

// The controller in another RF state. The list of pairs is emptied in IDLE.
fn turned(k: Controller, rf: Rf) -> Controller
    ensures { result ≡ turned k rf }
{
    let pairs = if is_idle(rf) { no_pairs() } else { k.pairs };
    Controller { rf, pairs, ..k }
}

// The controller's numbers after a verdict. A refusal changes nothing, so a rejected selection keeps the earlier one.
#[tactic(auto, unfolding(crate::specs::Controller::controller_after))]
pub fn controller_after(k: Controller, v: Result<Verdict, Status>) -> Controller
    ensures { result ≡ controller_after k v }
{
    match v {
        Ok(Verdict::Resets(_)) => Controller {
            phase: Phase::Reset,
            given: 0,
            rf: Rf::Idle,
            pairs: no_pairs(),
        },
        Ok(Verdict::Initialises) => Controller {
            phase: Phase::Ready,
            ..k
        },
        Ok(Verdict::Opens(id, _)) => Controller { given: id, ..k },
        Ok(Verdict::Turns(rf) | Verdict::Deactivates(_, rf)) => turned(k, rf),
        Ok(Verdict::Selects(p)) => turned(k, Rf::W4HostSelect(Some(p))),
        Ok(Verdict::Closes(_) | Verdict::SetsConfig | Verdict::GetsConfig) | Err(_) => k,
    }
}

// The connections after a verdict: a deactivation closes connection 0. A refusal changes none.
#[tactic(auto, unfolding(crate::specs::Controller::conns_after))]
pub fn conns_after(conns: [Counts; 5], v: Result<Verdict, Status>) -> [Counts; 5]
    ensures { result ≡ conns_after conns v }
{
    match v {
        Ok(Verdict::Resets(_)) => controller_all_closed(conns),
        Ok(Verdict::Opens(id, t)) => controller_opened_at(conns, id, t),
        Ok(Verdict::Closes(id)) => controller_closed_at(conns, id),
        Ok(Verdict::Deactivates(_, _)) => controller_closed_at(conns, 0),
        Ok(_) | Err(_) => conns,
    }
}

// The endpoint's message after a connection is opened or closed: on 0 none is in hand.
fn spared(h: Hand, id: u8) -> Hand
    ensures { result ≡ pick (eqb id 0) empty h }
{
    if id == 0 { empty_hand() } else { h }
}

// The endpoint's message after a verdict: connection 0 opens and closes with none in hand. A refusal leaves it.
#[tactic(auto, unfolding(crate::specs::Controller::endpoint_after))]
pub fn endpoint_after(h: Hand, v: Result<Verdict, Status>) -> Hand
    ensures { result ≡ endpoint_after h v }
{
    match v {
        Ok(Verdict::Resets(_) | Verdict::Deactivates(_, _)) => empty_hand(),
        Ok(Verdict::Opens(id, _) | Verdict::Closes(id)) => spared(h, id),
        Ok(_) | Err(_) => h,
    }
}

// The values after a RESET: type 1 restores all, type 0 keeps all.
fn reset_values(b: &mut [u8; CONFIG_SIZE], kind: u8)
    ensures { b.new ≡ pick (eqb kind 1) values.defaults b.old }
{
    if kind == 1 {
        *b = defaults();
    }
}

// The values after a verdict on the command m. They are of all parameters. A refusal leaves them.
#[tactic(auto, unfolding(crate::specs::Controller::config_by))]
pub fn config_by(b: &mut [u8; CONFIG_SIZE], m: &[u8], v: Result<Verdict, Status>)
    ensures { b.new ≡ config_by b.old m.now v }
{
    match v {
        Ok(Verdict::Resets(kind)) => reset_values(b, kind),
        Ok(Verdict::SetsConfig) => set_all(b, m),
        Ok(_) | Err(_) => {}
    }
}
