// report: five numbers of a connection, as a message of five octets.
ghost use Rattle.std.specs.Prelude.{◌≡◌, ◌≤◌, length};
ghost use Rattle.octets.specs.Octets.{pick, splice};
ghost use Rattle.state.specs.Conn.{flows};
ghost use Rattle.state.specs.Refusal.{number_in};
ghost use Rattle.area.specs.Map.{area_size, message_size};
ghost use Rattle.views.specs.View.{view};
ghost use Rattle.model.specs.calls.Report.{report_of, report_rules};
ghost use Rattle.calls.specs.Outcome.{Lowest};
ghost use Rattle.calls.specs.calls.Report.{reported_word, Reportable};

use area::map;
use octets::choose;
use state::conn;
use state::kinds::{HostSide, Record};
use state::refusal::Refusal;
use wires::{down, up};

// Why a report is not taken.
#[tactic(auto, unfolding(calls::specs::Outcome::lowest, state::specs::Conn::open_at))]
pub fn refusal(r: Record, conn: u8) -> Result<(), Refusal>
    ensures { Lowest (λ a. report_rules conn (view a r)) (number_in result) }
{
    Refusal::OutsideLimit.when(map::PLACES <= conn::place_of(conn))?;
    Refusal::NotOpen.when(!conn::open_at(r.ends.conns, conn))
}

// Credits held, 0 while the host hasn't the connection open; without flow control 255.
fn held_shown(grant: u8, h: HostSide) -> u8
    ensures { result ≡ pick (flows grant) (pick h.opened h.held 0) 255 }
{
    let held = choose(h.opened, h.held, 0);
    choose(grant != conn::UNMETERED, held, conn::UNMETERED)
}

// The five numbers.
fn numbers(area: &[u8], r: Record, conn: u8) -> [u8; 5]
    requires { (area_size ≤ length area.now) × Reportable r conn }
    ensures { result ≡ report_of conn (view area.now r) }
{
    let k = conn::counts_of(r.ends.conns, conn);
    let credits = up::credits_up(area, map::UP_AT, r.up, conn) as u8;
    [
        held_shown(k.controller.grant, k.host),
        down::data_count(area, map::DOWN_AT, r.down, conn) as u8,
        k.controller.store.count as u8,
        conn::owing(k.controller),
        choose(k.controller.grant != conn::UNMETERED, credits, 0),
    ]
}

// A report that is taken.
pub fn act(area: &[u8], out: &mut [u8], r: Record, conn: u8) -> u64
    requires { (area_size ≤ length area.now) × (message_size ≤ length out.old) × Reportable r conn }
    ensures { (result ≡ reported_word) × (out.new ≡ splice out.old 0 (report_of conn (view area.now r))) }
{
    octets::put(out, 0, &numbers(area, r, conn));
    call_word::hands_out(5)
}
