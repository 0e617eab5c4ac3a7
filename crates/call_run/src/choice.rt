// The move that comes next: the first that no rule refuses, all asked of one loaded record.
ghost use Rattle.std.specs.Prelude.{◌≡◌, IfSome};
ghost use Rattle.state.specs.Refusal.{number_in};
ghost use Rattle.area.specs.Map.{wire_slots};
ghost use Rattle.record.specs.Fit.{FitRing};
ghost use Rattle.views.specs.View.{view};
ghost use Rattle.model.specs.Bench.{rules};
ghost use Rattle.model.specs.Press.{moves, first_of};
ghost use Rattle.calls.specs.Outcome.{outcome, lowest};
ghost use Rattle.calls.specs.Demand.{perform};
ghost use Rattle.call_run.specs.Moves.{call_of, next_of, Playable};

use call_consume::consume;
use call_controller::{credit, reply};
use call_down::down;
use call_host::push;
use call_up::up;
use state::kinds::Record;
use state::refusal::Refusal;

// A call that Run to rest makes, of a consume and a push the connection.
#[derive(Clone, Copy, PartialEq, Eq, Debug)]
pub enum Move {
    Up,
    Down,
    Consume(u8),
    Credit,
    Push(u8),
    Reply,
}

// In the order in which they are tried, the lowest connection first.
const ORDER: [Move; 14] = [
    Move::Up,
    Move::Down,
    Move::Consume(0),
    Move::Consume(2),
    Move::Consume(3),
    Move::Consume(4),
    Move::Consume(5),
    Move::Credit,
    Move::Push(0),
    Move::Push(2),
    Move::Push(3),
    Move::Push(4),
    Move::Push(5),
    Move::Reply,
];

// Why a move is not taken: the first of the model's rules.
fn refusal(area: &[u8], r: Record, m: Move) -> Result<(), Refusal>
    requires { FitRing wire_slots r.down }
    ensures { number_in result ≡ lowest (rules (call_of m) (view area.now r)) }
{
    match m {
        Move::Up => up::refusal(r),
        Move::Down => down::refusal(area, r),
        Move::Consume(conn) => consume::refusal(r, conn),
        Move::Credit => credit::refusal(r),
        Move::Push(conn) => push::refusal(r, conn),
        Move::Reply => reply::refusal(r),
    }
}

// The first move that is possible.
pub fn next(area: &[u8], r: Record) -> Option<Move>
    requires { FitRing wire_slots r.down }
    ensures result_value { next_of result ≡ first_of moves (view area.now r) }
    ensures possible { IfSome result (λ m. 0 ≡ lowest (rules (call_of m) (view area.now r))) }
{
    for &m in &ORDER {
        if refusal(area, r, m).is_ok() {
            return Some(m);
        }
    }
    None
}

// A move that no rule refuses, as the call that it is.
pub fn make(area: &mut [u8], out: &mut [u8], r: Record, m: Move) -> u64
    requires { Playable area.old out.old r (call_of m) }
    ensures { outcome result area.new out.new ≡ perform (call_of m) area.old out.old }
{
    match m {
        Move::Up => up::act(area, out, r),
        Move::Down => down::act(area, r),
        Move::Consume(conn) => consume::act(area, out, r, conn),
        Move::Credit => credit::act(area, r),
        Move::Push(conn) => push::act(area, r, conn),
        Move::Reply => reply::act(area, r),
    }
}
