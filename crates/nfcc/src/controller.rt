// The controller's judgement of a whole command (document 01, "What the controller answers"). What a verdict does is in effects.
ghost use Rattle.std.specs.Prelude.{◌≡◌};
ghost use Rattle.state.specs.Conn.{open_at};
ghost use Rattle.nfcc.specs.Controller.{shortest, allowed, reset_by, after, next_id, create_by, close_by, config_ok, configs_ok, discover_by, select_by, sleep_rejected, rest_state, ended, deactivate_by, set_by, values_of, judge_of};

use config::set;
use state::commands::Command;
use state::conn::{open_at, terms_of};
use state::kinds::{Activation, Controller, Counts, Pair, Pairs, Phase, Profile, Rf};
use state::names::{
    FRAME_INTERFACE, LISTEN_B, LISTEN_F, LOOPBACK, TO_DISCOVERY, TO_IDLE, TO_SLEEP, TO_SLEEP_AF,
};
use state::radio::{is_idle, is_listed, listens, polls};
use state::verdict::{Status, Verdict};
use state::{commands, fields};

// The octets that a command must have; an unknown one is judged whatever its payload.
#[tactic(auto, unfolding(crate::specs::Controller::shortest))]
fn shortest(c: Command, m: &[u8]) -> usize
    ensures { result ≡ shortest c m.now }
{
    match c {
        Command::Unknown => 0,
        Command::Reset | Command::ConnClose | Command::Deactivate => 1,
        Command::Init | Command::ConnCreate => 2,
        Command::Select => 3,
        Command::Discover => fields::CONFIG_MODE
            + fields::CONFIG_SIZE * usize::from(octets::octet_at(m, fields::CONFIG_COUNT)),
        Command::SetConfig => set::list_end(m, octets::octet_at(m, 0)),
        Command::GetConfig => 1 + usize::from(octets::octet_at(m, 0)),
    }
}

// Whether a command is taken in a phase: RESET in every one, INIT once after each RESET, the others after INIT.
#[tactic(auto, unfolding(crate::specs::Controller::allowed))]
fn allowed(p: Phase, c: Command) -> bool
    ensures { result ≡ allowed p c }
{
    match c {
        Command::Reset | Command::Unknown => true,
        Command::Init => matches!(p, Phase::Reset),
        _ => matches!(p, Phase::Ready),
    }
}

// CORE_RESET_CMD: type 0 or 1.
#[tactic(auto, unfolding(crate::specs::Controller::reset_by))]
fn reset_by(kind: u8) -> Result<Verdict, Status>
    ensures { result ≡ reset_by kind }
{
    if 1 < kind {
        Err(Status::SyntaxError)
    } else {
        Ok(Verdict::Resets(kind))
    }
}

// The Conn ID after another, round 2-5; 2 after none.
#[tactic(auto, unfolding(crate::specs::Controller::after))]
fn after(id: u8) -> u8
    ensures { result ≡ after id }
{
    match id {
        2..=4 => id + 1,
        _ => 2,
    }
}

// The next Conn ID after the last given, passing open ones; none where all four are open.
fn next_id(conns: [Counts; 5], given: u8) -> Option<u8>
    ensures { result ≡ next_id (open_at conns) given }
{
    let mut id = after(given);
    for _ in 0..4u8 {
        if !open_at(conns, id) {
            return Some(id);
        }
        id = after(id);
    }
    None
}

// CORE_CONN_CREATE_CMD: destination 01, the loopback, with 00 parameters. The connection has the Conn ID that is next, if there is one.
#[tactic(auto, unfolding(crate::specs::Controller::create_by))]
fn create_by(p: Profile, conns: [Counts; 5], given: u8, m: &[u8]) -> Result<Verdict, Status>
    ensures { result ≡ create_by p (open_at conns) given m.now }
{
    let destination = octets::octet_at(m, fields::CREATE_DESTINATION);
    let parameters = octets::octet_at(m, fields::CREATE_PARAMETERS);
    if (destination == LOOPBACK) & (parameters == 0x00) {
        let id = next_id(conns, given).ok_or(Status::Rejected)?;
        Ok(Verdict::Opens(id, terms_of(p, id)))
    } else {
        Err(Status::Rejected)
    }
}

// CORE_CONN_CLOSE_CMD: the low four bits name an open dynamic connection.
#[tactic(auto, unfolding(crate::specs::Controller::close_by))]
fn close_by(conns: [Counts; 5], octet: u8) -> Result<Verdict, Status>
    ensures { result ≡ close_by (open_at conns) octet }
{
    let id = octet % 16;
    if (id != 0) & open_at(conns, id) {
        Ok(Verdict::Closes(id))
    } else {
        Err(Status::Rejected)
    }
}

// A mode and frequency that RF_DISCOVER_CMD may have: a listening mode is discovered in every period, a polling one in each or
// in one of up to ten.
fn config_ok(mode: u8, frequency: u8) -> bool
    ensures { result ≡ config_ok mode frequency }
{
    (polls(mode) & ((0x01 <= frequency) & (frequency <= 0x0A)))
        | (listens(mode) & (frequency == 0x01))
}

// Whether the first n pairs of mode and frequency, after the octet that counts them, are such. A `for`: with `.all(..)` over the range,
// `returns` stayed open.
#[tactic(auto, unfolding(crate::specs::Controller::configs_ok))]
fn configs_ok(m: &[u8], n: u8) -> bool
    ensures { result ≡ configs_ok m.now n }
{
    let mut ok = true;
    for i in 0..usize::from(n) {
        let at = fields::CONFIG_SIZE * i;
        let mode = octets::octet_at(m, fields::CONFIG_MODE + at);
        let frequency = octets::octet_at(m, fields::CONFIG_FREQUENCY + at);
        ok &= config_ok(mode, frequency);
    }
    ok
}

// RF_DISCOVER_CMD, in IDLE alone: up to eight pairs of mode and frequency.
#[tactic(auto, unfolding(crate::specs::Controller::discover_by))]
fn discover_by(rf: Rf, m: &[u8]) -> Result<Verdict, Status>
    ensures { result ≡ discover_by rf m.now }
{
    let n = octets::octet_at(m, fields::CONFIG_COUNT);
    if !is_idle(rf) {
        Err(Status::AlreadyStarted)
    } else if n <= 8 && configs_ok(m, n) {
        Ok(Verdict::Turns(Rf::Discovery))
    } else {
        Err(Status::Rejected)
    }
}

// RF_DISCOVER_SELECT_CMD, in W4_HOST_SELECT alone: the pair is in the list, and the interface is Frame.
fn select_by(rf: Rf, ps: Pairs, p: Pair, interface: u8) -> Result<Verdict, Status>
    ensures { result ≡ select_by rf ps p interface }
{
    let taken = is_listed(ps, p) & (interface == FRAME_INTERFACE);
    match rf {
        Rf::W4HostSelect(_) if taken => Ok(Verdict::Selects(p)),
        Rf::W4HostSelect(_) => Err(Status::Rejected),
        _ => Err(Status::SemanticError),
    }
}

// On the Frame interface a listening NFC-F endpoint (mode 82) is not put to Sleep, nor an NFC-B one (81) to Sleep_AF
// (003, L3696 and L3704). Document 01 would take both.
fn sleep_rejected(a: Activation, kind: u8) -> bool
    ensures { result ≡ sleep_rejected a kind }
{
    ((kind == TO_SLEEP) & (a.mode == LISTEN_F)) | ((kind == TO_SLEEP_AF) & (a.mode == LISTEN_B))
}

// The state after a deactivation of type 0, 3, and 1 or 2.
fn rest_state(kind: u8, asleep: Rf) -> Rf
    ensures { result ≡ rest_state kind asleep }
{
    match kind {
        TO_IDLE => Rf::Idle,
        TO_DISCOVERY => Rf::Discovery,
        _ => asleep,
    }
}

// An interface is deactivated.
fn ended(kind: u8, asleep: Rf) -> Verdict
    ensures { result ≡ ended kind asleep }
{
    Verdict::Deactivates(kind, rest_state(kind, asleep))
}

// RF_DEACTIVATE_CMD. Where the type is ignored, any is taken as 0, to IDLE: in both W4 states, and in DISCOVERY (003, L1824),
// where document 01 would look at it. A type over 3 is RFU. In LISTEN_SLEEP only type 0 is taken.
#[tactic(auto, unfolding(crate::specs::Controller::deactivate_by))]
fn deactivate_by(rf: Rf, kind: u8) -> Result<Verdict, Status>
    ensures { result ≡ deactivate_by rf kind }
{
    match rf {
        Rf::Idle => Err(Status::SemanticError),
        Rf::Discovery | Rf::W4AllDiscoveries | Rf::W4HostSelect(_) => Ok(Verdict::Turns(Rf::Idle)),
        _ if TO_DISCOVERY < kind => Err(Status::SyntaxError),
        Rf::ListenSleep if kind == TO_IDLE => Ok(Verdict::Turns(Rf::Idle)),
        Rf::ListenSleep => Err(Status::SemanticError),
        Rf::PollActive(_) => Ok(ended(kind, Rf::W4HostSelect(None))),
        Rf::ListenActive(a) if sleep_rejected(a, kind) => Err(Status::Rejected),
        Rf::ListenActive(_) => Ok(ended(kind, Rf::ListenSleep)),
    }
}

// CORE_SET_CONFIG_CMD: one that names a known parameter is taken in IDLE alone (003, 5.2.1).
#[tactic(auto, unfolding(crate::specs::Controller::set_by))]
fn set_by(rf: Rf, m: &[u8]) -> Result<Verdict, Status>
    ensures { result ≡ set_by rf m.now }
{
    let known = set::names_known(m, octets::octet_at(m, 0));
    if is_idle(rf) | !known {
        Ok(Verdict::SetsConfig)
    } else {
        Err(Status::SemanticError)
    }
}

// The verdict on a command that is long enough and allowed, by its values.
fn values_of(
    p: Profile,
    k: Controller,
    conns: [Counts; 5],
    c: Command,
    m: &[u8],
) -> Result<Verdict, Status>
    ensures { result ≡ values_of p k (open_at conns) c m.now }
{
    let first = octets::octet_at(m, 0);
    match c {
        Command::Reset => reset_by(first),
        Command::Init => Ok(Verdict::Initialises),
        Command::ConnCreate => create_by(p, conns, k.given, m),
        Command::ConnClose => close_by(conns, first),
        Command::Discover => discover_by(k.rf, m),
        Command::Select => {
            let pair = Pair {
                id: first,
                protocol: octets::octet_at(m, fields::SELECT_PROTOCOL),
            };
            let interface = octets::octet_at(m, fields::SELECT_INTERFACE);
            select_by(k.rf, k.pairs, pair, interface)
        }
        Command::Deactivate => deactivate_by(k.rf, first),
        Command::Unknown => Err(Status::SyntaxError),
        Command::SetConfig => set_by(k.rf, m),
        Command::GetConfig => Ok(Verdict::GetsConfig),
    }
}

// The verdict on a whole command. In order: unknown or too short, wrong state, values.
#[tactic(auto, unfolding(crate::specs::Controller::judge_of))]
pub fn judge(
    p: Profile,
    k: Controller,
    conns: [Counts; 5],
    gid: u8,
    oid: u8,
    m: &[u8],
) -> Result<Verdict, Status>
    ensures { result ≡ judge_of p k (open_at conns) gid oid m.now }
{
    let c = commands::command_of(gid, oid);
    if m.len() < shortest(c, m) {
        return Err(Status::SyntaxError);
    }
    if !allowed(k.phase, c) {
        return Err(Status::SemanticError);
    }
    values_of(p, k, conns, c, m)
}
