// The radio: RF states, technology and mode, and the pairs found.
ghost use Rattle.std.specs.Prelude.{◌≡◌};
ghost use Rattle.state.specs.Radio.{is_idle, is_listening, is_asleep, is_active, polls, listens, id_ok, same_pair, listed, started_with, added_to, pair_of, no_pairs};

use crate::kinds::{Activation, Pair, Pairs, Rf};
use crate::names;

pub fn is_idle(rf: Rf) -> bool
    ensures { result ≡ is_idle rf }
{
    matches!(rf, Rf::Idle)
}

pub fn is_listening(rf: Rf) -> bool
    ensures { result ≡ is_listening rf }
{
    matches!(rf, Rf::ListenActive(_))
}

pub fn is_asleep(rf: Rf) -> bool
    ensures { result ≡ is_asleep rf }
{
    matches!(rf, Rf::ListenSleep)
}

pub fn is_active(rf: Rf) -> bool
    ensures { result ≡ is_active rf }
{
    matches!(rf, Rf::PollActive(_) | Rf::ListenActive(_))
}

// A mode that polls, and one that listens (003, Table 131).
pub fn polls(mode: u8) -> bool
    ensures { result ≡ polls mode }
{
    (mode <= names::POLL_ACTIVE) | (mode == names::POLL_V)
}

pub fn listens(mode: u8) -> bool
    ensures { result ≡ listens mode }
{
    (names::LISTEN_A <= mode) & (mode <= names::LISTEN_ACTIVE)
}

// An RF discovery ID that is not RFU.
pub fn id_ok(id: u8) -> bool
    ensures { result ≡ id_ok id }
{
    (1 <= id) & (id <= 254)
}

// The pair of an activation. No `From`: it would need this clause as a ghost member.
pub fn pair_of(a: Activation) -> Pair
    ensures { result ≡ pair_of a }
{
    Pair {
        id: a.id,
        protocol: a.protocol,
    }
}

pub fn same_pair(a: Pair, b: Pair) -> bool
    ensures { result ≡ same_pair a b }
{
    a == b
}

// No pair at all.
pub fn no_pairs() -> Pairs
    ensures { result ≡ no_pairs }
{
    Pairs {
        list: [Pair { id: 0, protocol: 0 }; 8],
        count: 0,
    }
}

// Whether a pair is among those found.
pub fn is_listed(ps: Pairs, p: Pair) -> bool
    ensures { result ≡ listed ps p }
{
    ps.list[..ps.count.min(8)].contains(&p)
}

// A new list with this pair alone.
#[tactic(auto, unfolding(crate::specs::Radio::added_to))]
pub fn started_with(p: Pair) -> Pairs
    ensures { result ≡ started_with p }
{
    added_to(no_pairs(), p)
}

// The list with a pair more, where there is a place for it.
#[tactic(auto, unfolding(crate::specs::Radio::added_to))]
pub fn added_to(mut ps: Pairs, p: Pair) -> Pairs
    ensures { result ≡ added_to ps p }
{
    if ps.count < 8 {
        ps.list[ps.count] = p;
        ps.count += 1;
    }
    ps
}
