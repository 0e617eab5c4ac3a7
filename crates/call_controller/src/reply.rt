// reply: the next segment of the endpoint's message goes up on connection 0, with the credits that it carries.
ghost use Rattle.std.specs.Prelude.{◌≡◌, ◌≤◌, length};
ghost use Rattle.state.specs.Refusal.{number_in};
ghost use Rattle.area.specs.Map.{area_size};
ghost use Rattle.record.specs.Claims.{saved};
ghost use Rattle.views.specs.View.{view};
ghost use Rattle.model.specs.calls.Reply.{reply_rules};
ghost use Rattle.calls.specs.Outcome.{Lowest};
ghost use Rattle.calls.specs.calls.Reply.{replied_record, replied_slot, replied_word, Replyable};

use area::{map, movers, ring};
use packets::Header;
use record::write;
use state::conn;
use state::kinds::{Ends, Record};
use state::refusal::Refusal;

// Why a reply is not taken: the first of the model's rules, whatever the area's octets are.
#[tactic(auto, unfolding(calls::specs::Outcome::lowest), using(calls::proofs::Reply::reply_tests_law))]
pub fn refusal(r: Record) -> Result<(), Refusal>
    ensures { Lowest (λ a. reply_rules (view a r)) (number_in result) }
{
    Refusal::TooFewSlots.when(map::WIRE <= r.up.count)?;
    Refusal::NothingToMove.when(!r.ends.endpoint.full)
}

// The record after a reply: what the packet carries is no longer owed. Three contracts have `Replyable`, and no struct as its
// invariant: see call_host's `push::plan`.
fn plan(r: Record) -> Record
    requires { Replyable r }
    ensures { result ≡ replied_record r }
{
    let side = conn::paid(conn::counts_of(r.ends.conns, 0).controller);
    let ends = Ends {
        conns: conn::with_controller(r.ends.conns, 0, side),
        endpoint: conn::hand_after(map::PAYLOAD, r.ends.endpoint),
        ..r.ends
    };
    Record {
        ends,
        up: ring::put_into(r.up),
        ..r
    }
}

// The packet goes into the first free slot of the up wire.
fn put(area: &mut [u8], r: Record)
    requires { (area_size ≤ length area.old) × Replyable r }
    ensures { area.new ≡ replied_slot r area.old }
{
    let hand = r.ends.endpoint;
    let slot = ring::free_at(map::UP_AT, map::WIRE, r.up);
    // a literal, as the only one in this module: a constructor for it and the one of a notice takes as many lines
    let header = Header {
        mt: packets::DATA,
        pbf: false,
        id: 0,
        oid: 0,
        credits: conn::carried(conn::counts_of(r.ends.conns, 0).controller),
        spare: 0,
    };
    movers::put_segment(
        area,
        slot,
        header,
        map::PAYLOAD,
        map::ENDPOINT_AT,
        hand.len,
        hand.at,
    );
}

// A reply that is taken.
pub fn act(area: &mut [u8], r: Record) -> u64
    requires { (area_size ≤ length area.old) × Replyable r }
    ensures { (result ≡ replied_word) × (area.new ≡ saved (replied_slot r area.old) (replied_record r)) }
{
    put(area, r);
    write::encode(area, plan(r));
    call_word::puts_up(1)
}
