// send: a message is put in hand.
ghost use Rattle.std.specs.Prelude.{◌≡◌, ◌≤◌, length};
ghost use Rattle.state.specs.Refusal.{number_in};
ghost use Rattle.area.specs.Map.{area_size};
ghost use Rattle.record.specs.Claims.{saved};
ghost use Rattle.views.specs.View.{view};
ghost use Rattle.model.specs.calls.Send.{send_rules};
ghost use Rattle.calls.specs.Outcome.{Lowest};
ghost use Rattle.calls.specs.calls.Send.{sent_record, sent_place, sent_word, Sendable};

use area::{map, movers};
use dh::host::is_closing;
use dh::sending;
use record::write;
use state::conn;
use state::kinds::{Ends, Record};
use state::refusal::Refusal;

// Why a send is not taken: the first of the model's rules, whatever the area's octets are.
#[tactic(auto, unfolding(calls::specs::Outcome::lowest), using(calls::proofs::Send::send_tests_law))]
pub fn refusal(r: Record, conn: u8, message: &[u8]) -> Result<(), Refusal>
    ensures { Lowest (λ a. send_rules conn message.now (view a r)) (number_in result) }
{
    let h = conn::counts_of(r.ends.conns, conn).host;
    Refusal::OutsideLimit.when(
        (map::PLACES <= conn::place_of(conn)) | (map::MESSAGE < message.len()),
    )?;
    Refusal::SendClosing.when(is_closing(r.ends.host.pending))?;
    Refusal::NotOpen.when(!h.opened)?;
    Refusal::InHand.when(h.hand.full)
}

// The record after the message was put in hand.
fn plan(r: Record, conn: u8, message: &[u8]) -> Record
    ensures { result ≡ sent_record r conn message.now }
{
    let side = sending::sent(conn::counts_of(r.ends.conns, conn).host, message.len());
    let conns = conn::with_host(r.ends.conns, conn, side);
    Record {
        ends: Ends { conns, ..r.ends },
        ..r
    }
}

// The message goes into its place.
fn place_message(area: &mut [u8], conn: u8, message: &[u8])
    requires { (area_size ≤ length area.old) × Sendable conn message.now }
    ensures { area.new ≡ sent_place conn message.now area.old }
{
    movers::take_message(area, map::hand_at(conn::place_of(conn)), message);
}

// A send that is taken.
#[tactic(auto, unfolding(calls::specs::Word::word_of, record::specs::Layout::bit))]
pub fn act(area: &mut [u8], r: Record, conn: u8, message: &[u8]) -> u64
    requires { (area_size ≤ length area.old) × Sendable conn message.now }
    ensures { (result ≡ sent_word) × (area.new ≡ saved (sent_place conn message.now area.old) (sent_record r conn message.now)) }
{
    place_message(area, conn, message);
    write::encode(area, plan(r, conn, message));
    0
}
