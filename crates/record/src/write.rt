// The record written to its octets: an array of octets for each struct, then one store of it. The places are those of
// specs/Layout.antt.
ghost use Rattle.std.specs.Prelude.{◌≡◌, ◌+◌, ◌≤◌, length};
ghost use Rattle.octets.specs.Octets.{splice};
ghost use Rattle.area.specs.Map.{area_size, record_at};
ghost use Rattle.record.specs.Layout.{controller_size, counts_size, conns_size, front_size, middle_size, wires_size};
ghost use Rattle.record.specs.Writing.{phase_octet, rf_octets, profile_octets, control_run_octets, hand_octets, host_octets, pairs_octets, controller_octets, counts_octets, conns_octets, front_octets, middle_octets, wires_octets, encode_of};

use crate::places;
use area::map::{PLACES, RECORD_AT};
use state::kinds::{
    ControlRun, Controller, Counts, Ends, Hand, Host, Pairs, Phase, Profile, Record, Rf,
};

// Where the parts of the record that are stored together stand in the area, and what follows in each of them.
const FRONT_AT: usize = RECORD_AT + places::PROFILE;

const HOST_PART: usize = places::PROFILE_SIZE;

const HEARING_PART: usize = HOST_PART + places::HOST_SIZE;

const CONTROLLER_AT: usize = RECORD_AT + places::CONTROLLER;

const MIDDLE_AT: usize = RECORD_AT + places::ASKING;

const ENDPOINT_PART: usize = places::CONTROL_RUN_SIZE;

const CONNS_AT: usize = RECORD_AT + places::CONNS;

const WIRES_AT: usize = RECORD_AT + places::DOWN;

const WIRES_SIZE: usize = places::RING_SIZE + places::RING_SIZE;

#[tactic(auto, unfolding(crate::specs::Writing::profile_octets))]
fn profile_octets(p: Profile) -> [u8; places::PROFILE_SIZE]
    ensures { result ≡ profile_octets p }
{
    [
        p.control,
        p.two.payload,
        p.two.credits,
        p.three.payload,
        p.three.credits,
        p.four.payload,
        p.four.credits,
        p.five.payload,
        p.five.credits,
        p.fixed.payload,
        p.fixed.credits,
    ]
}

#[tactic(auto, unfolding(crate::specs::Writing::host_octets, crate::specs::Writing::pending_octets))]
pub fn host_octets(h: Host) -> [u8; places::HOST_SIZE]
    ensures { result ≡ host_octets h }
{
    match h.pending {
        None => [h.size, 0, 0, 0, 0],
        Some(a) => [h.size, 1, a.gid, a.oid, a.aim],
    }
}

// Lengths by `/` and `%`, here and below: `to_be_bytes` would need names for both octets of each.
#[tactic(auto, unfolding(crate::specs::Writing::control_run_octets, crate::specs::Layout::bit))]
fn run_octets(r: ControlRun) -> [u8; places::CONTROL_RUN_SIZE]
    ensures { result ≡ control_run_octets r }
{
    [
        r.mt,
        r.gid,
        r.oid,
        (r.run.len / 256 % 256) as u8,
        (r.run.len % 256) as u8,
        r.run.lost as u8,
    ]
}

// No `From`, here and for rf_octets, as for phase_of in read.
#[tactic(auto, unfolding(crate::specs::Writing::phase_octet))]
pub fn phase_octet(p: Phase) -> u8
    ensures { result ≡ phase_octet p }
{
    match p {
        Phase::Cold => 0,
        Phase::Reset => 1,
        Phase::Ready => 2,
    }
}

#[tactic(auto, unfolding(crate::specs::Writing::rf_octets))]
pub fn rf_octets(rf: Rf) -> [u8; 4]
    ensures { result ≡ rf_octets rf }
{
    match rf {
        Rf::Idle => [0, 0, 0, 0],
        Rf::Discovery => [1, 0, 0, 0],
        Rf::W4AllDiscoveries => [2, 0, 0, 0],
        Rf::W4HostSelect(None) => [3, 0, 0, 0],
        Rf::W4HostSelect(Some(p)) => [3, 1, p.id, p.protocol],
        Rf::PollActive(a) => [4, a.id, a.protocol, a.mode],
        Rf::ListenActive(a) => [5, a.id, a.protocol, a.mode],
        Rf::ListenSleep => [6, 0, 0, 0],
    }
}

// Written out: by index it would have to ask which octet of which pair it is.
#[tactic(auto, unfolding(crate::specs::Writing::pairs_octets))]
fn pairs_octets(k: Pairs) -> [u8; places::PAIRS_SIZE]
    ensures { result ≡ pairs_octets k }
{
    let [p0, p1, p2, p3, p4, p5, p6, p7] = k.list;
    [
        p0.id,
        p0.protocol,
        p1.id,
        p1.protocol,
        p2.id,
        p2.protocol,
        p3.id,
        p3.protocol,
        p4.id,
        p4.protocol,
        p5.id,
        p5.protocol,
        p6.id,
        p6.protocol,
        p7.id,
        p7.protocol,
        (k.count % 256) as u8,
    ]
}

#[tactic(auto, unfolding(crate::specs::Writing::hand_octets, crate::specs::Layout::bit))]
fn hand_octets(h: Hand) -> [u8; places::HAND_SIZE]
    ensures { result ≡ hand_octets h }
{
    [
        h.full as u8,
        (h.len / 256 % 256) as u8,
        (h.len % 256) as u8,
        (h.at / 256 % 256) as u8,
        (h.at % 256) as u8,
    ]
}

#[tactic(auto, unfolding(crate::specs::Writing::counts_octets, crate::specs::Writing::hand_octets, crate::specs::Writing::ring_octets, crate::specs::Layout::bit))]
fn counts_octets(c: Counts) -> [u8; places::COUNTS_SIZE]
    ensures { result ≡ counts_octets c }
{
    let h = c.host;
    let k = c.controller;
    [
        h.opened as u8,
        h.payload,
        h.grant,
        h.held,
        h.hand.full as u8,
        (h.hand.len / 256 % 256) as u8,
        (h.hand.len % 256) as u8,
        (h.hand.at / 256 % 256) as u8,
        (h.hand.at % 256) as u8,
        (h.run.len / 256 % 256) as u8,
        (h.run.len % 256) as u8,
        h.run.lost as u8,
        k.opened as u8,
        k.grant,
        k.owed,
        (k.store.head % 256) as u8,
        (k.store.count % 256) as u8,
        (k.run.len / 256 % 256) as u8,
        (k.run.len % 256) as u8,
        k.run.lost as u8,
    ]
}

#[tactic(auto, unfolding(crate::specs::Writing::wires_octets, crate::specs::Writing::ring_octets))]
fn wires_octets(r: Record) -> [u8; WIRES_SIZE]
    ensures { result ≡ wires_octets r }
{
    [
        (r.down.head % 256) as u8,
        (r.down.count % 256) as u8,
        (r.up.head % 256) as u8,
        (r.up.count % 256) as u8,
    ]
}

// The profile, the host and what it hears.
fn store_front(area: &mut [u8], at: usize, e: Ends)
    requires { at + front_size ≤ length area.old }
    ensures { area.new ≡ splice area.old at (front_octets e) }
{
    octets::put(area, at, &profile_octets(e.profile));
    octets::put(area, at + HOST_PART, &host_octets(e.host));
    octets::put(area, at + HEARING_PART, &run_octets(e.hearing));
}

fn store_controller(area: &mut [u8], at: usize, k: Controller)
    requires { at + controller_size ≤ length area.old }
    ensures { area.new ≡ splice area.old at (controller_octets k) }
{
    octets::put(area, at, &[phase_octet(k.phase), k.given]);
    octets::put(area, at + places::RF_PART, &rf_octets(k.rf));
    octets::put(area, at + places::PAIRS_PART, &pairs_octets(k.pairs));
}

// What the controller is asked, and the endpoint's message.
fn store_middle(area: &mut [u8], at: usize, e: Ends)
    requires { at + middle_size ≤ length area.old }
    ensures { area.new ≡ splice area.old at (middle_octets e) }
{
    octets::put(area, at, &run_octets(e.asking));
    octets::put(area, at + ENDPOINT_PART, &hand_octets(e.endpoint));
}

fn store_counts(area: &mut [u8], at: usize, c: Counts)
    requires { at + counts_size ≤ length area.old }
    ensures { area.new ≡ splice area.old at (counts_octets c) }
{
    octets::put(area, at, &counts_octets(c));
}

fn store_conns(area: &mut [u8], at: usize, conns: [Counts; 5])
    requires { at + conns_size ≤ length area.old }
    ensures { area.new ≡ splice area.old at (conns_octets conns) }
{
    for k in 0..PLACES {
        store_counts(area, at + k * places::COUNTS_SIZE, conns[k]);
    }
}

fn store_wires(area: &mut [u8], at: usize, r: Record)
    requires { at + wires_size ≤ length area.old }
    ensures { area.new ≡ splice area.old at (wires_octets r) }
{
    octets::put(area, at, &wires_octets(r));
}

// The record into its place of the area.
pub fn encode(area: &mut [u8], r: Record)
    requires { area_size ≤ length area.old }
    ensures { area.new ≡ splice area.old record_at (encode_of r) }
{
    store_front(area, FRONT_AT, r.ends);
    store_controller(area, CONTROLLER_AT, r.ends.controller);
    store_middle(area, MIDDLE_AT, r.ends);
    store_conns(area, CONNS_AT, r.ends.conns);
    store_wires(area, WIRES_AT, r);
}
