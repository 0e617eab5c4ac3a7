// The calls, each with what it is refused for: the record is loaded, the call's own rules are asked, and where none refuses the
// call is made.
// A function each: with one that enters and takes the rest as a closure, what the area is that a closure captured and wrote to was not
// known after it (`returns` stayed open).
ghost use Rattle.std.specs.Prelude.{◌≡◌};
ghost use Rattle.state.specs.Refusal.{word_in};
ghost use Rattle.calls.specs.Outcome.{outcome};
ghost use Rattle.calls.specs.calls.Fresh.{fresh_call};
ghost use Rattle.calls.specs.calls.Power.{power_call};
ghost use Rattle.calls.specs.calls.Command.{command_call};
ghost use Rattle.calls.specs.calls.Send.{send_call};
ghost use Rattle.calls.specs.calls.Push.{push_call};
ghost use Rattle.calls.specs.calls.Down.{down_call};
ghost use Rattle.calls.specs.calls.Consume.{consume_call};
ghost use Rattle.calls.specs.calls.Credit.{credit_call};
ghost use Rattle.calls.specs.calls.Reply.{reply_call};
ghost use Rattle.calls.specs.calls.Up.{up_call};
ghost use Rattle.calls.specs.calls.Air.{air_call};
ghost use Rattle.calls.specs.calls.Report.{report_call};
ghost use Rattle.calls.specs.Run.{run_call};
ghost use Rattle.calls.specs.Packet.{packet_call};
ghost use Rattle.calls.specs.Look.{state_call};

use call_bench::{fresh, look, packet, power, report};
use call_consume::consume;
use call_controller::{airing, credit, reply};
use call_down::down;
use call_entry::enter;
use call_host::{command, push, send};
use call_run::run;
use call_up::up;
use state::refusal::Refusal;

pub(crate) fn fresh(area: &mut [u8], out: &mut [u8], profile: &[u8]) -> Result<u64, Refusal>
    ensures { outcome (word_in result) area.new out.new ≡ fresh_call area.old out.old profile.now }
{
    fresh::refusal(area.len(), out.len(), profile)?;
    Ok(fresh::act(area, profile))
}

pub(crate) fn power(area: &mut [u8], out: &mut [u8]) -> Result<u64, Refusal>
    ensures { outcome (word_in result) area.new out.new ≡ power_call area.old out.old }
{
    let r = enter(area, out.len())?;
    Ok(power::act(area, r))
}

pub(crate) fn command(
    area: &mut [u8],
    out: &mut [u8],
    gid: u8,
    oid: u8,
    payload: &[u8],
) -> Result<u64, Refusal>
    ensures { outcome (word_in result) area.new out.new ≡ command_call area.old out.old gid oid payload.now }
{
    let r = enter(area, out.len())?;
    command::refusal(r, gid, oid, payload)?;
    Ok(command::act(area, r, gid, oid, payload))
}

pub(crate) fn send(
    area: &mut [u8],
    out: &mut [u8],
    conn: u8,
    message: &[u8],
) -> Result<u64, Refusal>
    ensures { outcome (word_in result) area.new out.new ≡ send_call area.old out.old conn message.now }
{
    let r = enter(area, out.len())?;
    send::refusal(r, conn, message)?;
    Ok(send::act(area, r, conn, message))
}

pub(crate) fn push(area: &mut [u8], out: &mut [u8], conn: u8) -> Result<u64, Refusal>
    ensures { outcome (word_in result) area.new out.new ≡ push_call area.old out.old conn }
{
    let r = enter(area, out.len())?;
    push::refusal(r, conn)?;
    Ok(push::act(area, r, conn))
}

pub(crate) fn down(area: &mut [u8], out: &mut [u8]) -> Result<u64, Refusal>
    ensures { outcome (word_in result) area.new out.new ≡ down_call area.old out.old }
{
    let r = enter(area, out.len())?;
    down::refusal(area, r)?;
    Ok(down::act(area, r))
}

pub(crate) fn consume(area: &mut [u8], out: &mut [u8], conn: u8) -> Result<u64, Refusal>
    ensures { outcome (word_in result) area.new out.new ≡ consume_call area.old out.old conn }
{
    let r = enter(area, out.len())?;
    consume::refusal(r, conn)?;
    Ok(consume::act(area, out, r, conn))
}

pub(crate) fn credit(area: &mut [u8], out: &mut [u8]) -> Result<u64, Refusal>
    ensures { outcome (word_in result) area.new out.new ≡ credit_call area.old out.old }
{
    let r = enter(area, out.len())?;
    credit::refusal(r)?;
    Ok(credit::act(area, r))
}

pub(crate) fn reply(area: &mut [u8], out: &mut [u8]) -> Result<u64, Refusal>
    ensures { outcome (word_in result) area.new out.new ≡ reply_call area.old out.old }
{
    let r = enter(area, out.len())?;
    reply::refusal(r)?;
    Ok(reply::act(area, r))
}

pub(crate) fn up(area: &mut [u8], out: &mut [u8]) -> Result<u64, Refusal>
    ensures { outcome (word_in result) area.new out.new ≡ up_call area.old out.old }
{
    let r = enter(area, out.len())?;
    up::refusal(r)?;
    Ok(up::act(area, out, r))
}

pub(crate) fn air(area: &mut [u8], out: &mut [u8], event: &[u8]) -> Result<u64, Refusal>
    ensures { outcome (word_in result) area.new out.new ≡ air_call area.old out.old event.now }
{
    let r = enter(area, out.len())?;
    airing::refusal(r, event)?;
    Ok(airing::act(area, r, event))
}

pub(crate) fn report(area: &mut [u8], out: &mut [u8], conn: u8) -> Result<u64, Refusal>
    ensures { outcome (word_in result) area.new out.new ≡ report_call area.old out.old conn }
{
    let r = enter(area, out.len())?;
    report::refusal(r, conn)?;
    Ok(report::act(area, out, r, conn))
}

pub(crate) fn run(area: &mut [u8], out: &mut [u8]) -> Result<u64, Refusal>
    ensures { outcome (word_in result) area.new out.new ≡ run_call area.old out.old }
{
    enter(area, out.len())?;
    Ok(run::act(area, out))
}

pub(crate) fn packet(area: &[u8], out: &mut [u8], wire: u8, back: u8) -> Result<u64, Refusal>
    ensures { outcome (word_in result) area.now out.new ≡ packet_call area.now out.old wire back }
{
    let r = enter(area, out.len())?;
    packet::refusal(r, wire, back)?;
    Ok(packet::act(area, out, r, wire, back))
}

pub(crate) fn state(area: &[u8], out: &mut [u8]) -> Result<u64, Refusal>
    ensures { outcome (word_in result) area.now out.new ≡ state_call area.now out.old }
{
    let r = enter(area, out.len())?;
    Ok(look::act(out, r))
}
