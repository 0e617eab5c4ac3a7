// Conn IDs, their places in the record's array, and the terms that the profile has for them.
ghost use Rattle.std.specs.Prelude.{◌≡◌, ℕ, ◌<◌, ◌≤◌, get_or, set};
ghost use Rattle.state.specs.Conn.{place_of, conn_of, terms_of, metered, credit_sum, owing, counts_of, held_open, open_at, start, empty, hand_with, hand_after, closed_controller, opened_controller, closed_host, opened_host, closed_counts, with_controller, with_host, controller_closed_at, controller_opened_at, controller_all_closed, host_closed_at, host_opened_at, host_all_closed, carried_by, paid_side, noticed_side, all_noticed};

use crate::kinds::{ControllerSide, Counts, Hand, HostSide, Profile, Progress, Ring, Terms};

// The credits octet for no flow control.
pub const UNMETERED: u8 = 255;

// The place of a Conn ID in the array of five; 5 for an ID that no connection has. No Option: half of the callers have a connection's ID,
// and would unwrap one (`map::hand_at(place_of(conn).unwrap())`); the others ask whether it is below 5, which is no longer than `is_some`.
#[tactic(auto, unfolding(crate::specs::Conn::place_of))]
pub fn place_of(conn: u8) -> usize
    ensures { result ≡ place_of conn }
{
    match conn {
        0 => 0,
        2 => 1,
        3 => 2,
        4 => 3,
        5 => 4,
        _ => 5,
    }
}

// The Conn ID of a place. Here too a match of numbers: an impl of `From` between two integers cannot be ours.
#[tactic(auto, unfolding(crate::specs::Conn::conn_of))]
pub fn conn_of(place: usize) -> u8
    ensures { result ≡ conn_of place }
{
    match place {
        0 => 0,
        1 => 2,
        2 => 3,
        3 => 4,
        _ => 5,
    }
}

// The terms that the profile has for a Conn ID.
#[tactic(auto, unfolding(crate::specs::Conn::terms_of))]
pub fn terms_of(p: Profile, conn: u8) -> Terms
    ensures { result ≡ terms_of p conn }
{
    match conn {
        0 => p.fixed,
        2 => p.two,
        3 => p.three,
        4 => p.four,
        _ => p.five,
    }
}

// The credits that a grant counts for: without flow control none.
pub fn metered(grant: u8) -> u8
    ensures { result ≡ metered grant }
{
    if grant == UNMETERED { 0 } else { grant }
}

// A sum of credits, which is an octet.
pub fn credit_sum(held: u8, n: usize) -> u8
    ensures { result ≡ credit_sum held n }
{
    held.wrapping_add((n % 256) as u8)
}

// What is owed on a connection, if it is open at the controller and flow-controlled.
pub fn owing(k: ControllerSide) -> u8
    ensures { result ≡ owing k.opened k.grant k.owed }
{
    if k.opened & (k.grant != UNMETERED) {
        k.owed
    } else {
        0
    }
}

// The counts of a Conn ID; those of a closed connection for an ID that no connection has.
pub fn counts_of(conns: [Counts; 5], conn: u8) -> Counts
    ensures { result ≡ counts_of conns conn }
{
    match conns.get(place_of(conn)) {
        Some(c) => *c,
        None => closed_counts(),
    }
}

// Whether a Conn ID is open at the controller.
#[tactic(auto, unfolding(crate::specs::Conn::open_at))]
pub fn open_at(conns: [Counts; 5], conn: u8) -> bool
    ensures { result ≡ open_at conns conn }
{
    counts_of(conns, conn).controller.opened
}

// Whether a Conn ID is open at the host.
#[tactic(auto, unfolding(crate::specs::Conn::held_open))]
pub fn held_open(conns: [Counts; 5], conn: u8) -> bool
    ensures { result ≡ held_open conns conn }
{
    counts_of(conns, conn).host.opened
}

// No octet reassembled yet. A function, as those below: a constant has no clause that says it is the definition's.
pub fn start() -> Progress
    ensures { result ≡ start }
{
    Progress {
        len: 0,
        lost: false,
    }
}

// No message in hand.
pub fn empty_hand() -> Hand
    ensures { result ≡ empty }
{
    Hand {
        full: false,
        len: 0,
        at: 0,
    }
}

// A message of n octets was put in hand.
pub fn hand_with(n: usize) -> Hand
    ensures { result ≡ hand_with n }
{
    Hand {
        full: true,
        len: n,
        at: 0,
    }
}

// A message in hand after a segment of at most size octets has gone.
pub fn hand_after(size: usize, h: Hand) -> Hand
    ensures { result ≡ hand_after size h }
{
    if packets::follows(h.len, h.at, size) {
        Hand {
            full: true,
            at: h.at + size,
            ..h
        }
    } else {
        empty_hand()
    }
}

// A connection that is not open at the controller: nothing is stored, owed or in reassembly.
pub fn closed_controller() -> ControllerSide
    ensures { result ≡ closed_controller }
{
    ControllerSide {
        opened: false,
        grant: 0,
        owed: 0,
        store: Ring { head: 0, count: 0 },
        run: start(),
    }
}

// One that the controller has just opened.
pub fn opened_controller(t: Terms) -> ControllerSide
    ensures { result ≡ opened_controller t }
{
    ControllerSide {
        opened: true,
        grant: t.credits,
        ..closed_controller()
    }
}

// A connection that is not open at the host: no message is in hand or in reassembly.
pub fn closed_host() -> HostSide
    ensures { result ≡ closed_host }
{
    HostSide {
        opened: false,
        payload: 0,
        grant: 0,
        held: 0,
        hand: empty_hand(),
        run: start(),
    }
}

// One that the host has just opened, with its whole grant.
pub fn opened_host(t: Terms) -> HostSide
    ensures { result ≡ opened_host t }
{
    HostSide {
        opened: true,
        payload: t.payload,
        grant: t.credits,
        held: t.credits,
        ..closed_host()
    }
}

// A connection that is open at neither end.
pub fn closed_counts() -> Counts
    ensures { result ≡ closed_counts }
{
    Counts {
        host: closed_host(),
        controller: closed_controller(),
    }
}

// The array with the counts of a Conn ID changed; as it was for an ID that no connection has. Inlined, since each call moves the array.
#[inline(always)]
fn with_counts<F: FnOnce(Counts) -> Counts>(
    mut conns: [Counts; 5],
    conn: u8,
    change: F,
) -> [Counts; 5]
    requires { F.IsAlwaysCallable change }
    ensures changed { place_of conn < 5 → (c : _) × F.post change (counts_of conns conn) c × (result ≡ set conns (place_of conn) c) }
    ensures kept { 5 ≤ place_of conn → result ≡ conns }
{
    let place = place_of(conn);
    if place < 5 {
        conns[place] = change(conns[place]);
    }
    conns
}

// The counts of each connection, changed. Not `[T; N]::map`, by way of whose iterator a credit took 1,161 instructions for 318.
#[inline(always)]
fn each<F: Fn(Counts) -> Counts>(mut conns: [Counts; 5], change: F) -> [Counts; 5]
    requires { F.IsAlwaysCallable change }
    ensures { (p : ℕ) → p < 5 → F.post change (get_or conns p closed_counts) (get_or result p closed_counts) }
{
    for i in 0..5 {
        conns[i] = change(conns[i]);
    }
    conns
}

// A function for each side, here and below: the sides have other fields, and a trait would name these same functions once more.

// The array with another controller's side for a Conn ID.
#[inline(always)]
pub fn with_controller(conns: [Counts; 5], conn: u8, side: ControllerSide) -> [Counts; 5]
    ensures { result ≡ with_controller conns conn side }
{
    with_counts(
        conns,
        conn,
        |c| Counts {
            controller: side,
            ..c
        },
    )
}

// The array with another host's side for a Conn ID.
#[inline(always)]
pub fn with_host(conns: [Counts; 5], conn: u8, side: HostSide) -> [Counts; 5]
    ensures { result ≡ with_host conns conn side }
{
    with_counts(conns, conn, |c| Counts { host: side, ..c })
}

// A connection closes at the controller.
pub fn controller_closed_at(conns: [Counts; 5], conn: u8) -> [Counts; 5]
    ensures { result ≡ controller_closed_at conns conn }
{
    with_controller(conns, conn, closed_controller())
}

// A connection opens at the controller.
pub fn controller_opened_at(conns: [Counts; 5], conn: u8, t: Terms) -> [Counts; 5]
    ensures { result ≡ controller_opened_at conns conn t }
{
    with_controller(conns, conn, opened_controller(t))
}

// All connections close at the controller.
pub fn controller_all_closed(conns: [Counts; 5]) -> [Counts; 5]
    ensures { result ≡ controller_all_closed conns }
{
    each(
        conns,
        |c| Counts {
            controller: closed_controller(),
            ..c
        },
    )
}

// A connection closes at the host.
pub fn host_closed_at(conns: [Counts; 5], conn: u8) -> [Counts; 5]
    ensures { result ≡ host_closed_at conns conn }
{
    with_host(conns, conn, closed_host())
}

// A connection opens at the host.
pub fn host_opened_at(conns: [Counts; 5], conn: u8, t: Terms) -> [Counts; 5]
    ensures { result ≡ host_opened_at conns conn t }
{
    with_host(conns, conn, opened_host(t))
}

// All connections close at the host.
pub fn host_all_closed(conns: [Counts; 5]) -> [Counts; 5]
    ensures { result ≡ host_all_closed conns }
{
    each(
        conns,
        |c| Counts {
            host: closed_host(),
            ..c
        },
    )
}

// The credits that a data packet going up carries: what the connection owes, at most 3.
#[tactic(auto, unfolding(crate::specs::Conn::carriable))]
pub fn carried(k: ControllerSide) -> u8
    ensures { result ≡ carried_by k }
{
    owing(k).min(3)
}

// The connection after it: what the packet carries is no longer owed.
#[tactic(auto, using(crate::proofs::Credits::carried_owed))]
pub fn paid(k: ControllerSide) -> ControllerSide
    ensures { result ≡ paid_side k }
{
    ControllerSide {
        owed: k.owed - carried(k),
        ..k
    }
}

// All that a connection owes has been put in a notice.
fn noticed_side(k: ControllerSide) -> ControllerSide
    ensures { result ≡ noticed_side k }
{
    if k.opened & (k.grant != UNMETERED) {
        ControllerSide { owed: 0, ..k }
    } else {
        k
    }
}

// The credits of all connections have been put in a notice.
pub fn all_noticed(conns: [Counts; 5]) -> [Counts; 5]
    ensures { result ≡ all_noticed conns }
{
    each(
        conns,
        |c| Counts {
            controller: noticed_side(c.controller),
            ..c
        },
    )
}
