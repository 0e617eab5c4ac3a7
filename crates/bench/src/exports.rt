// The calls. Each takes any area, any buffer and any arguments, and answers its effect or one number. Crate bench_c hands them to
// C, each under its own name.
ghost use Rattle.std.specs.Prelude.{◌≡◌};
ghost use Rattle.state.specs.Refusal.{word_in};
ghost use Rattle.calls.specs.Outcome.{outcome};
ghost use Rattle.calls.specs.calls.Fresh.{fresh_call};
ghost use Rattle.calls.specs.calls.Power.{power_call};
ghost use Rattle.calls.specs.calls.Command.{command_call};
ghost use Rattle.calls.specs.calls.Send.{send_call};
ghost use Rattle.calls.specs.calls.Push.{push_call};
ghost use Rattle.calls.specs.calls.Down.{down_call};
ghost use Rattle.calls.specs.calls.Consume.{consume_call};
ghost use Rattle.calls.specs.calls.Credit.{credit_call};
ghost use Rattle.calls.specs.calls.Reply.{reply_call};
ghost use Rattle.calls.specs.calls.Up.{up_call};
ghost use Rattle.calls.specs.calls.Air.{air_call};
ghost use Rattle.calls.specs.calls.Report.{report_call};
ghost use Rattle.calls.specs.Run.{run_call};
ghost use Rattle.calls.specs.Packet.{packet_call};
ghost use Rattle.calls.specs.Look.{state_call};
ghost use Rattle.calls.specs.Read.{read_call};

use crate::attempt;
use call_bench::read;
use state::refusal::Refusal;

// The word of a call.
fn word(answer: Result<u64, Refusal>) -> u64
    ensures { result ≡ word_in answer }
{
    answer.unwrap_or_else(u64::from)
}

// A new bench with a profile of five octets or eleven.
pub fn nci_fresh(area: &mut [u8], out: &mut [u8], profile: &[u8]) -> u64
    ensures { outcome result area.new out.new ≡ fresh_call area.old out.old profile.now }
{
    word(attempt::fresh(area, out, profile))
}

// Both ends cold, both wires empty, the profile kept.
pub fn nci_power(area: &mut [u8], out: &mut [u8]) -> u64
    ensures { outcome result area.new out.new ≡ power_call area.old out.old }
{
    word(attempt::power(area, out))
}

// All segments of a command go on the down wire.
pub fn nci_command(area: &mut [u8], out: &mut [u8], gid: u8, oid: u8, payload: &[u8]) -> u64
    ensures { outcome result area.new out.new ≡ command_call area.old out.old gid oid payload.now }
{
    word(attempt::command(area, out, gid, oid, payload))
}

// A message is put in hand.
pub fn nci_send(area: &mut [u8], out: &mut [u8], conn: u8, message: &[u8]) -> u64
    ensures { outcome result area.new out.new ≡ send_call area.old out.old conn message.now }
{
    word(attempt::send(area, out, conn, message))
}

// The next segment of the message in hand of a connection goes down.
pub fn nci_push(area: &mut [u8], out: &mut [u8], conn: u8) -> u64
    ensures { outcome result area.new out.new ≡ push_call area.old out.old conn }
{
    word(attempt::push(area, out, conn))
}

// The controller takes the first packet of the down wire.
pub fn nci_down(area: &mut [u8], out: &mut [u8]) -> u64
    ensures { outcome result area.new out.new ≡ down_call area.old out.old }
{
    word(attempt::down(area, out))
}

// The controller takes the oldest stored packet of a connection into reassembly.
pub fn nci_consume(area: &mut [u8], out: &mut [u8], conn: u8) -> u64
    ensures { outcome result area.new out.new ≡ consume_call area.old out.old conn }
{
    word(attempt::consume(area, out, conn))
}

// One notice of all that is owed goes up.
pub fn nci_credit(area: &mut [u8], out: &mut [u8]) -> u64
    ensures { outcome result area.new out.new ≡ credit_call area.old out.old }
{
    word(attempt::credit(area, out))
}

// The next segment of the endpoint's message goes up on connection 0.
pub fn nci_reply(area: &mut [u8], out: &mut [u8]) -> u64
    ensures { outcome result area.new out.new ≡ reply_call area.old out.old }
{
    word(attempt::reply(area, out))
}

// The host takes the first packet of the up wire.
pub fn nci_up(area: &mut [u8], out: &mut [u8]) -> u64
    ensures { outcome result area.new out.new ≡ up_call area.old out.old }
{
    word(attempt::up(area, out))
}

// An event of the RF field meets the controller.
pub fn nci_air(area: &mut [u8], out: &mut [u8], event: &[u8]) -> u64
    ensures { outcome result area.new out.new ≡ air_call area.old out.old event.now }
{
    word(attempt::air(area, out, event))
}

// Five numbers of a connection.
pub fn nci_report(area: &mut [u8], out: &mut [u8], conn: u8) -> u64
    ensures { outcome result area.new out.new ≡ report_call area.old out.old conn }
{
    word(attempt::report(area, out, conn))
}

// Run to rest: moves until none is left, or one has handed a message out. It is none of the twelve calls, but a list of them.
pub fn nci_run(area: &mut [u8], out: &mut [u8]) -> u64
    ensures { outcome result area.new out.new ≡ run_call area.old out.old }
{
    word(attempt::run(area, out))
}

// The packet of a wire (0 the down wire, 1 the up wire) after which so many others were put, for front ends that show packets. It
// is none of the twelve calls.
pub fn nci_packet(area: &[u8], out: &mut [u8], wire: u8, back: u8) -> u64
    ensures { outcome result area.now out.new ≡ packet_call area.now out.old wire back }
{
    word(attempt::packet(area, out, wire, back))
}

// What is going on: the controller's phase, the RF state, the unanswered command, packets on the wires, messages in hand and open
// connections, for front ends that say it. It is none of the twelve calls.
pub fn nci_state(area: &[u8], out: &mut [u8]) -> u64
    ensures { outcome result area.now out.new ≡ state_call area.now out.old }
{
    word(attempt::state(area, out))
}

// Octets that are read as a packet going up, and nothing else, for front ends that show reserved bits. It is none of the twelve
// calls.
pub fn nci_read(octets: &[u8]) -> u64
    ensures { result ≡ read_call octets.now }
{
    read::read(octets)
}
