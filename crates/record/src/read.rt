// The record read from its octets: a function for each struct, named after it. s is the record's 512 octets, and the
// places in it are those of specs/Layout.antt. A tag that is none of its cases reads as the first; judge sees it. Each asks for its own
// octets from `at` on: an array for each would first be cut out of s, with a proof that it fits.
ghost use Rattle.std.specs.Prelude.{◌≡◌, ◌+◌, ◌≤◌, ◌*◌, length};
ghost use Rattle.area.specs.Map.{area_size};
ghost use Rattle.record.specs.Layout.{profile_size, progress_size, control_run_size, hand_size, ring_size, host_size, pairs_size, controller_size, host_side_size, controller_side_size, counts_size, conns_size, record_end};
ghost use Rattle.state.specs.Profile.{terms_in};
ghost use Rattle.record.specs.Reading.{wide_at, pending_of, phase_of, rf_of, profile_at, progress_at, control_run_at, hand_at, ring_at, host_at, pair_at, pairs_at, controller_at, host_side_at, controller_side_at, counts_at, conns_at, ends_of, record_of, decode_of};

use crate::places;
use area::map::{AREA, RECORD_AT};
use state::kinds::{
    Activation, Asked, ControlRun, Controller, ControllerSide, Counts, Ends, Hand, Host, HostSide,
    Pair, Pairs, Phase, Profile, Progress, Record, Rf, Ring, Terms,
};
use std::array;

// A length or a position, high octet first.
#[tactic(auto, unfolding(crate::specs::Reading::wide_at))]
fn wide_at(s: &[u8], at: usize) -> usize
    requires { at + 2 ≤ length s.now }
    ensures { result ≡ wide_at s.now at }
{
    usize::from(u16::from_be_bytes([s[at], s[at + 1]]))
}

#[tactic(auto, unfolding(crate::specs::Reading::pending_of))]
fn pending_of(tag: u8, gid: u8, oid: u8, aim: u8) -> Option<Asked>
    ensures { result ≡ pending_of tag gid oid aim }
{
    (tag == 1).then_some(Asked { gid, oid, aim })
}

// No `From`, here and for rf_of: number and type both belong to other crates than this, so that no impl may stand here.
#[tactic(auto, unfolding(crate::specs::Reading::phase_of))]
fn phase_of(tag: u8) -> Phase
    ensures { result ≡ phase_of tag }
{
    match tag {
        1 => Phase::Reset,
        2 => Phase::Ready,
        _ => Phase::Cold,
    }
}

#[tactic(auto, unfolding(crate::specs::Reading::rf_of))]
fn rf_of(tag: u8, a: u8, b: u8, c: u8) -> Rf
    ensures { result ≡ rf_of tag a b c }
{
    match tag {
        1 => Rf::Discovery,
        2 => Rf::W4AllDiscoveries,
        3 => Rf::W4HostSelect((a == 1).then_some(Pair { id: b, protocol: c })),
        4 => Rf::PollActive(Activation {
            id: a,
            protocol: b,
            mode: c,
        }),
        5 => Rf::ListenActive(Activation {
            id: a,
            protocol: b,
            mode: c,
        }),
        6 => Rf::ListenSleep,
        _ => Rf::Idle,
    }
}

// Not state's `terms_in`, which reads 0 past an end: here the octets are asked for, and read as they are.
fn terms_at(s: &[u8], at: usize) -> Terms
    requires { at + 2 ≤ length s.now }
    ensures { result ≡ terms_in s.now at }
{
    Terms {
        payload: s[at],
        credits: s[at + 1],
    }
}

#[tactic(auto, unfolding(crate::specs::Reading::profile_at))]
fn profile_at(s: &[u8], at: usize) -> Profile
    requires { at + profile_size ≤ length s.now }
    ensures { result ≡ profile_at s.now at }
{
    Profile {
        control: s[at],
        two: terms_at(s, at + 1),
        three: terms_at(s, at + 3),
        four: terms_at(s, at + 5),
        five: terms_at(s, at + 7),
        fixed: terms_at(s, at + 9),
    }
}

#[tactic(auto, unfolding(crate::specs::Reading::progress_at))]
fn progress_at(s: &[u8], at: usize) -> Progress
    requires { at + progress_size ≤ length s.now }
    ensures { result ≡ progress_at s.now at }
{
    Progress {
        len: wide_at(s, at),
        lost: s[at + places::LOST_PART] == 1,
    }
}

#[tactic(auto, unfolding(crate::specs::Reading::control_run_at))]
fn control_run_at(s: &[u8], at: usize) -> ControlRun
    requires { at + control_run_size ≤ length s.now }
    ensures { result ≡ control_run_at s.now at }
{
    ControlRun {
        mt: s[at],
        gid: s[at + 1],
        oid: s[at + 2],
        run: progress_at(s, at + places::RUN_PART),
    }
}

#[tactic(auto, unfolding(crate::specs::Reading::hand_at))]
fn hand_at(s: &[u8], at: usize) -> Hand
    requires { at + hand_size ≤ length s.now }
    ensures { result ≡ hand_at s.now at }
{
    Hand {
        full: s[at] == 1,
        len: wide_at(s, at + 1),
        at: wide_at(s, at + 3),
    }
}

#[tactic(auto, unfolding(crate::specs::Reading::ring_at))]
fn ring_at(s: &[u8], at: usize) -> Ring
    requires { at + ring_size ≤ length s.now }
    ensures { result ≡ ring_at s.now at }
{
    Ring {
        head: usize::from(s[at]),
        count: usize::from(s[at + 1]),
    }
}

#[tactic(auto, unfolding(crate::specs::Reading::host_at))]
fn host_at(s: &[u8], at: usize) -> Host
    requires { at + host_size ≤ length s.now }
    ensures { result ≡ host_at s.now at }
{
    Host {
        size: s[at],
        pending: pending_of(
            s[at + places::PENDING_PART],
            s[at + 2],
            s[at + 3],
            s[at + 4],
        ),
    }
}

#[tactic(auto, unfolding(crate::specs::Reading::pair_at))]
fn pair_at(s: &[u8], at: usize) -> Pair
    requires { at + 2 ≤ length s.now }
    ensures { result ≡ pair_at s.now at }
{
    Pair {
        id: s[at],
        protocol: s[at + 1],
    }
}

fn pairs_at(s: &[u8], at: usize) -> Pairs
    requires { at + pairs_size ≤ length s.now }
    ensures { result ≡ pairs_at s.now at }
{
    Pairs {
        list: array::from_fn(|k| pair_at(s, at + 2 * k)),
        count: usize::from(s[at + 16]),
    }
}

#[tactic(auto, unfolding(crate::specs::Reading::controller_at))]
fn controller_at(s: &[u8], at: usize) -> Controller
    requires { at + controller_size ≤ length s.now }
    ensures { result ≡ controller_at s.now at }
{
    Controller {
        phase: phase_of(s[at]),
        given: s[at + 1],
        rf: rf_of(
            s[at + places::RF_PART],
            s[at + places::SELECTED_PART],
            s[at + 4],
            s[at + 5],
        ),
        pairs: pairs_at(s, at + places::PAIRS_PART),
    }
}

#[tactic(auto, unfolding(crate::specs::Reading::host_side_at))]
fn host_side_at(s: &[u8], at: usize) -> HostSide
    requires { at + host_side_size ≤ length s.now }
    ensures { result ≡ host_side_at s.now at }
{
    HostSide {
        opened: s[at] == 1,
        payload: s[at + 1],
        grant: s[at + 2],
        held: s[at + 3],
        hand: hand_at(s, at + places::HAND_PART),
        run: progress_at(s, at + places::HOST_RUN_PART),
    }
}

#[tactic(auto, unfolding(crate::specs::Reading::controller_side_at))]
fn controller_side_at(s: &[u8], at: usize) -> ControllerSide
    requires { at + controller_side_size ≤ length s.now }
    ensures { result ≡ controller_side_at s.now at }
{
    ControllerSide {
        opened: s[at] == 1,
        grant: s[at + 1],
        owed: s[at + 2],
        store: ring_at(s, at + places::STORE_PART),
        run: progress_at(s, at + places::CONTROLLER_RUN_PART),
    }
}

#[tactic(auto, unfolding(crate::specs::Reading::counts_at))]
fn counts_at(s: &[u8], at: usize) -> Counts
    requires { at + counts_size ≤ length s.now }
    ensures { result ≡ counts_at s.now at }
{
    Counts {
        host: host_side_at(s, at),
        controller: controller_side_at(s, at + places::HOST_SIDE_SIZE),
    }
}

fn conns_at(s: &[u8], at: usize) -> [Counts; 5]
    requires { at + conns_size ≤ length s.now }
    ensures { result ≡ conns_at s.now at }
{
    array::from_fn(|k| counts_at(s, at + k * places::COUNTS_SIZE))
}

#[tactic(auto, unfolding(crate::specs::Reading::ends_of))]
fn ends_of(s: &[u8]) -> Ends
    requires { record_end ≤ length s.now }
    ensures { result ≡ ends_of s.now }
{
    Ends {
        profile: profile_at(s, places::PROFILE),
        host: host_at(s, places::HOST),
        hearing: control_run_at(s, places::HEARING),
        controller: controller_at(s, places::CONTROLLER),
        asking: control_run_at(s, places::ASKING),
        endpoint: hand_at(s, places::ENDPOINT),
        conns: conns_at(s, places::CONNS),
    }
}

// The record of its own octets.
#[tactic(auto, unfolding(crate::specs::Reading::record_of))]
pub fn record_of(s: &[u8]) -> Record
    requires { record_end ≤ length s.now }
    ensures { result ≡ record_of s.now }
{
    Record {
        ends: ends_of(s),
        down: ring_at(s, places::DOWN),
        up: ring_at(s, places::UP),
    }
}

// The record of an area.
#[tactic(auto, unfolding(crate::specs::Reading::decode_of, crate::specs::Layout::record_octets, octets::specs::Octets::cut))]
pub fn decode(area: &[u8]) -> Record
    requires { area_size ≤ length area.now }
    ensures { result ≡ decode_of area.now }
{
    record_of(&area[RECORD_AT..AREA])
}
