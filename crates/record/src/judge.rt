// Row 1 of the refusals (document 01): whether the record in its octets is one that can be. No test ends another: each
// function is the definition of its name in specs/Judge.antt, test by test, and a loop looks at all five connections. Tags
// are looked at in the octets, since a record has none that is not there.
ghost use Rattle.std.specs.Prelude.{◌≡◌, ◌+◌, ◌≤◌, length};
ghost use Rattle.area.specs.Map.{area_size};
ghost use Rattle.record.specs.Layout.{counts_size, conns_size, record_end};
ghost use Rattle.record.specs.Reading.{decode_of};
ghost use Rattle.record.specs.Judge.{hand_ok, given_ok, host_side_ok, controller_side_ok, counts_ok, conns_ok, ends_ok, record_ok, rf_known, conn_known, conns_known, tags_ok, judge_of};

use crate::{parameters, places};
use area::map::{AREA, CONTROL, MESSAGE, PLACES, RECORD_AT, STORE, WIRE};
use config::stored::parameters_ok;
use state::kinds::{ControllerSide, Counts, Ends, Hand, HostSide, Record};
use state::profile::{LEAST_SIZE, profile_ok};

// Where tags stand in the record: of the unanswered command, of the two control runs, of the RF state and its selection.
const PENDING: usize = places::HOST + places::PENDING_PART;

const HEARING_LOST: usize = places::HEARING + places::RUN_PART + places::LOST_PART;

const ASKING_LOST: usize = places::ASKING + places::RUN_PART + places::LOST_PART;

const RF: usize = places::CONTROLLER + places::RF_PART;

const SELECTED: usize = places::CONTROLLER + places::SELECTED_PART;

// Where they stand in a connection: its run lost at the host, open at the controller, its run lost there.
const HOST_LOST: usize = places::HOST_RUN_PART + places::LOST_PART;

const OPENED: usize = places::HOST_SIDE_SIZE;

const LOST: usize = OPENED + places::CONTROLLER_RUN_PART + places::LOST_PART;

#[tactic(auto, unfolding(crate::specs::Judge::hand_ok))]
fn hand_ok(h: Hand) -> bool
    ensures { result ≡ hand_ok h }
{
    (h.len <= MESSAGE) & (h.at <= h.len)
}

#[tactic(auto, unfolding(crate::specs::Judge::given_ok))]
fn given_ok(id: u8) -> bool
    ensures { result ≡ given_ok id }
{
    (id == 0) | ((2 <= id) & (id <= 5))
}

#[tactic(auto, unfolding(crate::specs::Judge::host_side_ok))]
fn host_side_ok(h: HostSide) -> bool
    ensures { result ≡ host_side_ok h }
{
    (h.held <= h.grant) & (!h.opened | (1 <= h.payload)) & hand_ok(h.hand) & (h.run.len <= MESSAGE)
}

#[tactic(auto, unfolding(crate::specs::Judge::controller_side_ok))]
fn controller_side_ok(k: ControllerSide) -> bool
    ensures { result ≡ controller_side_ok k }
{
    (k.owed <= k.grant)
        & ((k.store.count <= STORE) & (k.store.head < STORE))
        & (k.run.len <= MESSAGE)
}

#[tactic(auto, unfolding(crate::specs::Judge::counts_ok))]
fn counts_ok(c: Counts) -> bool
    ensures { result ≡ counts_ok c }
{
    host_side_ok(c.host) & controller_side_ok(c.controller)
}

#[tactic(auto, using(crate::proofs::Judging::oks_all))]
fn conns_ok(conns: [Counts; 5]) -> bool
    ensures { result ≡ conns_ok conns }
{
    let mut ok = true;
    for c in &conns {
        ok &= counts_ok(*c);
    }
    ok
}

#[tactic(auto, unfolding(crate::specs::Judge::ends_ok))]
fn ends_ok(e: Ends) -> bool
    ensures { result ≡ ends_ok e }
{
    let numbers = (LEAST_SIZE <= e.host.size)
        & (e.hearing.run.len <= CONTROL)
        & (e.asking.run.len <= CONTROL)
        & (e.controller.pairs.count <= places::PAIRS_ROOM);
    numbers
        & given_ok(e.controller.given)
        & profile_ok(e.profile)
        & hand_ok(e.endpoint)
        & conns_ok(e.conns)
}

#[tactic(auto, unfolding(crate::specs::Judge::record_ok))]
fn record_ok(r: Record) -> bool
    ensures { result ≡ record_ok r }
{
    let down = (r.down.count <= WIRE) & (r.down.head < WIRE);
    let up = (r.up.count <= WIRE) & (r.up.head < WIRE);
    down & up & ends_ok(r.ends)
}

#[tactic(auto, unfolding(crate::specs::Judge::rf_known))]
fn rf_known(tag: u8, selected: u8) -> bool
    ensures { result ≡ rf_known tag selected }
{
    (tag <= 6) & ((tag != 3) | (selected <= 1))
}

#[tactic(auto, unfolding(crate::specs::Judge::conn_known))]
fn conn_known(s: &[u8], at: usize) -> bool
    requires { at + counts_size ≤ length s.now }
    ensures { result ≡ conn_known s.now at }
{
    (s[at] <= 1)
        & (s[at + places::HAND_PART] <= 1)
        & (s[at + HOST_LOST] <= 1)
        & (s[at + OPENED] <= 1)
        & (s[at + LOST] <= 1)
}

#[tactic(auto, using(crate::proofs::Judging::known_all))]
fn conns_known(s: &[u8], at: usize) -> bool
    requires { at + conns_size ≤ length s.now }
    ensures { result ≡ conns_known s.now at }
{
    let mut known = true;
    for k in 0..PLACES {
        known &= conn_known(s, at + k * places::COUNTS_SIZE);
    }
    known
}

#[tactic(auto, unfolding(crate::specs::Judge::tags_ok))]
fn tags_ok(s: &[u8]) -> bool
    requires { record_end ≤ length s.now }
    ensures { result ≡ tags_ok s.now }
{
    let tags = (s[PENDING] <= 1)
        & (s[places::CONTROLLER] <= 2)
        & (s[HEARING_LOST] <= 1)
        & (s[ASKING_LOST] <= 1)
        & (s[places::ENDPOINT] <= 1);
    tags & rf_known(s[RF], s[SELECTED]) & conns_known(s, places::CONNS)
}

// Whether row 1 does not apply, to the record and to the configuration behind it.
// The area's record r is decoded by the caller, who needs it too.
#[tactic(auto, unfolding(crate::specs::Judge::judge_of, crate::specs::Layout::record_octets, octets::specs::Octets::cut), using(crate::proofs::Configured::length_config))]
pub fn judge(area: &[u8], r: Record) -> bool
    requires { (area_size ≤ length area.now) × (r ≡ decode_of area.now) }
    ensures { result ≡ judge_of area.now }
{
    tags_ok(&area[RECORD_AT..AREA]) & record_ok(r) & parameters_ok(parameters::values_of(area))
}
