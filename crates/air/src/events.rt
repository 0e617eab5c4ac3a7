// The air (document 01, "The air"): the octets of an event, whether the state takes it, and its notification. What it does is in effects.
ghost use Rattle.std.specs.Prelude.{◌≡◌, ◌+◌, ◌≤◌, length, drop};
ghost use Rattle.state.specs.Names.{gid_rf, oid_discover, oid_activated};
ghost use Rattle.state.specs.Conn.{terms_of};
ghost use Rattle.state.specs.Runs.{control_limit};
ghost use Rattle.messages.specs.Layout.{Put, MayPut, discover_ntf, activated_ntf};
ghost use Rattle.air.specs.Air.{target_of, found_in, active_in, poll_in, listen_in, event_of, kind_of, no_room, found_to, found_by, poll_by, listen_by, failed_by, aired_by, air_message};

use messages::layout::{Note, activated_ntf, deactivate_ntf, discover_ntf, generic_error_ntf};
use state::conn::terms_of;
use state::kinds::{Activation, Pair, Pairs, Profile, Rf};
use state::names;
use state::radio::{
    id_ok, is_active, is_asleep, is_listed, is_listening, listens, pair_of, polls, same_pair,
};
use state::runs::CONTROL_LIMIT;

// An event, by its kind; octets outside the limits of any are none. Found carries the notification type.
#[derive(Clone, Copy)]
pub enum Event {
    Found(Activation, u8),
    Poll(Activation),
    Listen(Activation),
    Failed,
    Sleeps,
    LinkLost,
    Releases,
    Endpoint,
}

// What becomes of the list of pairs.
#[derive(Clone, Copy)]
pub enum Listing {
    Keeps,
    Starts(Pair),
    Adds(Pair),
}

// What an event does where the state takes it. Goes: to a state. Activates: connection 0 opens. Ends: it closes. Speaks: the endpoint
// has a message.
#[derive(Clone, Copy)]
pub enum Aired {
    Goes(Rf, Listing),
    Activates(Rf, Listing),
    Ends(Rf),
    Speaks,
}

// ID, protocol and mode.
fn target_of(m: &[u8]) -> Activation
    ensures { result ≡ target_of m.now }
{
    Activation {
        id: octets::octet_at(m, 1),
        protocol: octets::octet_at(m, 2),
        mode: octets::octet_at(m, 3),
    }
}

// Kind 1: ID, protocol, mode, type, and up to 32 parameter octets.
#[tactic(auto, unfolding(crate::specs::Air::found_in))]
fn found_in(m: &[u8]) -> Option<Event>
    ensures { result ≡ found_in m.now }
{
    let n = m.len();
    let a = target_of(m);
    let kind = octets::octet_at(m, 4);
    let ok = (5 <= n) & (n <= 37) & id_ok(a.id) & polls(a.mode) & (kind <= names::MORE_FOLLOW);
    ok.then_some(Event::Found(a, kind))
}

// Kinds 2 and 3: ID, protocol, a mode of the kind, and up to 32 parameter octets.
fn active_in(m: &[u8], in_mode: bool, e: Event) -> Option<Event>
    ensures { result ≡ active_in m.now in_mode e }
{
    let n = m.len();
    let ok = (4 <= n) & (n <= 36) & id_ok(octets::octet_at(m, 1)) & in_mode;
    ok.then_some(e)
}

// The event that the octets are, the kind first.
#[tactic(auto, unfolding(crate::specs::Air::event_of, crate::specs::Air::poll_in, crate::specs::Air::listen_in))]
pub fn event_of(m: &[u8]) -> Option<Event>
    ensures { result ≡ event_of m.now }
{
    let n = m.len();
    let a = target_of(m);
    match octets::octet_at(m, 0) {
        1 => found_in(m),
        2 => active_in(m, polls(a.mode), Event::Poll(a)),
        3 => active_in(m, listens(a.mode), Event::Listen(a)),
        4 => (n == 1).then_some(Event::Failed),
        5 => (n == 1).then_some(Event::Sleeps),
        6 => (n == 1).then_some(Event::LinkLost),
        7 => (n == 1).then_some(Event::Releases),
        8 => (n <= 1025).then_some(Event::Endpoint),
        _ => None,
    }
}

// The kind of an event, 1 to 8; 0 for octets that are none. A number, since the model's `air_rules` tell the kinds apart by theirs.
pub fn kind_of(e: Option<Event>) -> u8
    ensures { result ≡ kind_of e }
{
    match e {
        None => 0,
        Some(Event::Found(_, _)) => 1,
        Some(Event::Poll(_)) => 2,
        Some(Event::Listen(_)) => 3,
        Some(Event::Failed) => 4,
        Some(Event::Sleeps) => 5,
        Some(Event::LinkLost) => 6,
        Some(Event::Releases) => 7,
        Some(Event::Endpoint) => 8,
    }
}

// A repeated pair, an eighth with type 2, or a list with no place left.
fn no_room(ps: Pairs, p: Pair, kind: u8) -> bool
    ensures { result ≡ no_room ps p kind }
{
    is_listed(ps, p) | (8 <= ps.count) | ((kind == names::MORE_FOLLOW) & (7 <= ps.count))
}

// The state after a target was found: type 2 says that more follow.
fn found_to(kind: u8) -> Rf
    ensures { result ≡ found_to kind }
{
    if kind == names::MORE_FOLLOW {
        Rf::W4AllDiscoveries
    } else {
        Rf::W4HostSelect(None)
    }
}

// A target is found.
#[tactic(auto, unfolding(crate::specs::Air::found_by))]
fn found_by(rf: Rf, ps: Pairs, a: Activation, kind: u8) -> Option<Aired>
    ensures { result ≡ found_by rf ps a kind }
{
    let p = pair_of(a);
    match rf {
        Rf::Discovery if kind == names::MORE_FOLLOW => Some(Aired::Goes(
            Rf::W4AllDiscoveries,
            Listing::Starts(p),
        )),
        Rf::W4AllDiscoveries if !no_room(ps, p, kind) => Some(Aired::Goes(
            found_to(kind),
            Listing::Adds(p),
        )),
        _ => None,
    }
}

// A poll activation; from W4_HOST_SELECT it is that of the selection.
#[tactic(auto, unfolding(crate::specs::Air::poll_by))]
fn poll_by(rf: Rf, a: Activation) -> Option<Aired>
    ensures { result ≡ poll_by rf a }
{
    let p = pair_of(a);
    match rf {
        Rf::Discovery => Some(Aired::Activates(Rf::PollActive(a), Listing::Starts(p))),
        Rf::W4HostSelect(Some(q)) if same_pair(q, p) => Some(Aired::Activates(
            Rf::PollActive(a),
            Listing::Keeps,
        )),
        _ => None,
    }
}

// A listen activation.
#[tactic(auto, unfolding(crate::specs::Air::listen_by))]
fn listen_by(rf: Rf, a: Activation) -> Option<Aired>
    ensures { result ≡ listen_by rf a }
{
    match rf {
        Rf::Discovery | Rf::ListenSleep => Some(Aired::Activates(
            Rf::ListenActive(a),
            Listing::Keeps,
        )),
        _ => None,
    }
}

// The selected target failed: the selection ends.
#[tactic(auto, unfolding(crate::specs::Air::failed_by))]
fn failed_by(rf: Rf) -> Option<Aired>
    ensures { result ≡ failed_by rf }
{
    match rf {
        Rf::W4HostSelect(Some(_)) => Some(Aired::Goes(Rf::W4HostSelect(None), Listing::Keeps)),
        _ => None,
    }
}

// What an event does in an RF state with these pairs found, where the state takes it.
#[tactic(auto, unfolding(crate::specs::Air::aired_by))]
pub fn judge_event(rf: Rf, ps: Pairs, e: Option<Event>) -> Option<Aired>
    ensures { result ≡ aired_by rf ps e }
{
    match e? {
        Event::Found(a, kind) => found_by(rf, ps, a, kind),
        Event::Poll(a) => poll_by(rf, a),
        Event::Listen(a) => listen_by(rf, a),
        Event::Failed => failed_by(rf),
        Event::Sleeps => is_listening(rf).then_some(Aired::Ends(Rf::ListenSleep)),
        Event::LinkLost => (is_listening(rf) | is_asleep(rf)).then_some(Aired::Ends(Rf::Discovery)),
        Event::Releases => is_listening(rf).then_some(Aired::Ends(Rf::Discovery)),
        Event::Endpoint => is_active(rf).then_some(Aired::Speaks),
    }
}

// RF_DISCOVER_NTF for a target that was found; its parameters are a part of the event's octets.
fn found_message(out: &mut [u8; CONTROL_LIMIT], a: Activation, kind: u8, m: &[u8]) -> Note
    requires { 5 + length (drop 5 m.now) ≤ control_limit }
    ensures { Put out.old (record { gid = gid_rf; oid = oid_discover; payload = discover_ntf a kind (drop 5 m.now) }) result out.new }
{
    discover_ntf(out, a, kind, octets::window(m, 5, m.len()))
}

// RF_INTF_ACTIVATED_NTF for an activation.
fn active_message(out: &mut [u8; CONTROL_LIMIT], p: Profile, a: Activation, m: &[u8]) -> Note
    requires { 11 + length (drop 4 m.now) ≤ control_limit }
    ensures { Put out.old (record { gid = gid_rf; oid = oid_activated; payload = activated_ntf a (terms_of p 0) (drop 4 m.now) }) result out.new }
{
    activated_ntf(out, a, terms_of(p, 0), octets::window(m, 4, m.len()))
}

// The notification that an event gives, where it gives one. That of an event that was
// read from m is short enough for the buffer, whatever m is (`event_room`).
#[tactic(auto, using(messages::proofs::Messages::put_nothing, messages::proofs::Messages::put_some), unfolding(crate::specs::Air::air_message))]
pub fn air_message(
    out: &mut [u8; CONTROL_LIMIT],
    p: Profile,
    e: Option<Event>,
    m: &[u8],
) -> Option<Note>
    requires { length (air_message p e m.now).payload ≤ control_limit }
    ensures { MayPut out.old (air_message p e m.now) result out.new }
{
    let note = match e? {
        Event::Found(a, kind) => found_message(out, a, kind, m),
        Event::Poll(a) | Event::Listen(a) => active_message(out, p, a, m),
        Event::Failed => generic_error_ntf(out),
        Event::Sleeps => deactivate_ntf(out, names::TO_SLEEP, names::ENDPOINT_REQUEST),
        Event::LinkLost => deactivate_ntf(out, names::TO_DISCOVERY, names::LINK_LOSS),
        Event::Releases => deactivate_ntf(out, names::TO_DISCOVERY, names::ENDPOINT_REQUEST),
        Event::Endpoint => return None,
    };
    Some(note)
}
