// push: the next segment of the message in hand goes down, and a credit is spent if flow-controlled.
ghost use Rattle.std.specs.Prelude.{◌≡◌, ◌≤◌, length};
ghost use Rattle.state.specs.Refusal.{number_in};
ghost use Rattle.area.specs.Map.{area_size};
ghost use Rattle.record.specs.Claims.{saved};
ghost use Rattle.views.specs.View.{view};
ghost use Rattle.model.specs.calls.Push.{push_rules};
ghost use Rattle.calls.specs.Outcome.{Lowest};
ghost use Rattle.calls.specs.calls.Push.{pushed_record, pushed_slot, pushed_word, Pushable};

use area::{map, movers, ring};
use dh::host::is_closing;
use dh::sending;
use packets::Header;
use record::write;
use state::conn;
use state::kinds::{Ends, Record};
use state::refusal::Refusal;

// Why a push is not taken: the first of the model's rules, whatever the area's octets are.
#[tactic(auto, unfolding(calls::specs::Outcome::lowest), using(calls::proofs::Push::push_tests_law))]
pub fn refusal(r: Record, conn: u8) -> Result<(), Refusal>
    ensures { Lowest (λ a. push_rules conn (view a r)) (number_in result) }
{
    let h = conn::counts_of(r.ends.conns, conn).host;
    Refusal::OutsideLimit.when(map::PLACES <= conn::place_of(conn))?;
    Refusal::TooFewSlots.when(map::WIRE <= r.down.count)?;
    Refusal::NotOpen.when(!h.opened)?;
    Refusal::NothingToMove.when(!h.hand.full)?;
    Refusal::NoCredit.when((h.grant != conn::UNMETERED) & (h.held == 0))?;
    Refusal::Closing.when(is_closing(r.ends.host.pending))
}

// The record after a push. Three contracts have `Pushable`: a struct of r and conn with that as its invariant, made in `act`, adds
// nine lines for the two clauses that it saves.
fn plan(r: Record, conn: u8) -> Record
    requires { Pushable r conn }
    ensures { result ≡ pushed_record r conn }
{
    let side = sending::pushed(conn::counts_of(r.ends.conns, conn).host);
    let conns = conn::with_host(r.ends.conns, conn, side);
    Record {
        ends: Ends { conns, ..r.ends },
        down: ring::put_into(r.down),
        ..r
    }
}

// The packet goes into the first free slot of the down wire.
fn put(area: &mut [u8], r: Record, conn: u8)
    requires { (area_size ≤ length area.old) × Pushable r conn }
    ensures { area.new ≡ pushed_slot r conn area.old }
{
    let h = conn::counts_of(r.ends.conns, conn).host;
    let from = map::hand_at(conn::place_of(conn));
    let slot = ring::free_at(map::DOWN_AT, map::WIRE, r.down);
    // a literal here and one in `command`: a constructor for the two takes as many lines
    let header = Header {
        mt: packets::DATA,
        pbf: false,
        id: conn,
        oid: 0,
        credits: 0,
        spare: 0,
    };
    movers::put_segment(
        area,
        slot,
        header,
        h.payload as usize,
        from,
        h.hand.len,
        h.hand.at,
    );
}

// A push that is taken.
pub fn act(area: &mut [u8], r: Record, conn: u8) -> u64
    requires { (area_size ≤ length area.old) × Pushable r conn }
    ensures { (result ≡ pushed_word) × (area.new ≡ saved (pushed_slot r conn area.old) (pushed_record r conn)) }
{
    put(area, r, conn);
    write::encode(area, plan(r, conn));
    call_word::puts_down(1)
}
