// The library for front ends in C and other languages: the calls of crate bench, each as a symbol of its own and with the same
// clauses. A slice is passed as a pointer and a length (include/nci_bench.h).
#![tactic(auto)]

ghost use Rattle.std.specs.Prelude.{◌≡◌};
ghost use Rattle.calls.specs.Outcome.{outcome};
ghost use Rattle.calls.specs.calls.Fresh.{fresh_call};
ghost use Rattle.calls.specs.calls.Power.{power_call};
ghost use Rattle.calls.specs.calls.Command.{command_call};
ghost use Rattle.calls.specs.calls.Send.{send_call};
ghost use Rattle.calls.specs.calls.Push.{push_call};
ghost use Rattle.calls.specs.calls.Down.{down_call};
ghost use Rattle.calls.specs.calls.Consume.{consume_call};
ghost use Rattle.calls.specs.calls.Credit.{credit_call};
ghost use Rattle.calls.specs.calls.Reply.{reply_call};
ghost use Rattle.calls.specs.calls.Up.{up_call};
ghost use Rattle.calls.specs.calls.Air.{air_call};
ghost use Rattle.calls.specs.calls.Report.{report_call};
ghost use Rattle.calls.specs.Run.{run_call};
ghost use Rattle.calls.specs.Packet.{packet_call};
ghost use Rattle.calls.specs.Look.{state_call};
ghost use Rattle.calls.specs.Read.{read_call};

use bench::exports;

// A new bench with a profile of five octets or eleven.
#[unsafe(no_mangle)]
pub extern "C" fn nci_fresh(area: &mut [u8], out: &mut [u8], profile: &[u8]) -> u64
    ensures { outcome result area.new out.new ≡ fresh_call area.old out.old profile.now }
{
    exports::nci_fresh(area, out, profile)
}

// Both ends cold, both wires empty, the profile kept.
#[unsafe(no_mangle)]
pub extern "C" fn nci_power(area: &mut [u8], out: &mut [u8]) -> u64
    ensures { outcome result area.new out.new ≡ power_call area.old out.old }
{
    exports::nci_power(area, out)
}

// All segments of a command go on the down wire.
#[unsafe(no_mangle)]
pub extern "C" fn nci_command(
    area: &mut [u8],
    out: &mut [u8],
    gid: u8,
    oid: u8,
    payload: &[u8],
) -> u64
    ensures { outcome result area.new out.new ≡ command_call area.old out.old gid oid payload.now }
{
    exports::nci_command(area, out, gid, oid, payload)
}

// A message is put in hand.
#[unsafe(no_mangle)]
pub extern "C" fn nci_send(area: &mut [u8], out: &mut [u8], conn: u8, message: &[u8]) -> u64
    ensures { outcome result area.new out.new ≡ send_call area.old out.old conn message.now }
{
    exports::nci_send(area, out, conn, message)
}

// The next segment of the message in hand of a connection goes down.
#[unsafe(no_mangle)]
pub extern "C" fn nci_push(area: &mut [u8], out: &mut [u8], conn: u8) -> u64
    ensures { outcome result area.new out.new ≡ push_call area.old out.old conn }
{
    exports::nci_push(area, out, conn)
}

// The controller takes the first packet of the down wire.
#[unsafe(no_mangle)]
pub extern "C" fn nci_down(area: &mut [u8], out: &mut [u8]) -> u64
    ensures { outcome result area.new out.new ≡ down_call area.old out.old }
{
    exports::nci_down(area, out)
}

// The controller takes the oldest stored packet of a connection into reassembly.
#[unsafe(no_mangle)]
pub extern "C" fn nci_consume(area: &mut [u8], out: &mut [u8], conn: u8) -> u64
    ensures { outcome result area.new out.new ≡ consume_call area.old out.old conn }
{
    exports::nci_consume(area, out, conn)
}

// One notice of all that is owed goes up.
#[unsafe(no_mangle)]
pub extern "C" fn nci_credit(area: &mut [u8], out: &mut [u8]) -> u64
    ensures { outcome result area.new out.new ≡ credit_call area.old out.old }
{
    exports::nci_credit(area, out)
}

// The next segment of the endpoint's message goes up on connection 0.
#[unsafe(no_mangle)]
pub extern "C" fn nci_reply(area: &mut [u8], out: &mut [u8]) -> u64
    ensures { outcome result area.new out.new ≡ reply_call area.old out.old }
{
    exports::nci_reply(area, out)
}

// The host takes the first packet of the up wire.
#[unsafe(no_mangle)]
pub extern "C" fn nci_up(area: &mut [u8], out: &mut [u8]) -> u64
    ensures { outcome result area.new out.new ≡ up_call area.old out.old }
{
    exports::nci_up(area, out)
}

// An event of the RF field meets the controller.
#[unsafe(no_mangle)]
pub extern "C" fn nci_air(area: &mut [u8], out: &mut [u8], event: &[u8]) -> u64
    ensures { outcome result area.new out.new ≡ air_call area.old out.old event.now }
{
    exports::nci_air(area, out, event)
}

// Five numbers of a connection.
#[unsafe(no_mangle)]
pub extern "C" fn nci_report(area: &mut [u8], out: &mut [u8], conn: u8) -> u64
    ensures { outcome result area.new out.new ≡ report_call area.old out.old conn }
{
    exports::nci_report(area, out, conn)
}

// Run to rest: moves until none is left, or one has handed a message out. It is none of the twelve calls, but a list of them.
#[unsafe(no_mangle)]
pub extern "C" fn nci_run(area: &mut [u8], out: &mut [u8]) -> u64
    ensures { outcome result area.new out.new ≡ run_call area.old out.old }
{
    exports::nci_run(area, out)
}

// The packet of a wire (0 the down wire, 1 the up wire) after which so many others were put, for front ends that show packets. It
// is none of the twelve calls.
#[unsafe(no_mangle)]
pub extern "C" fn nci_packet(area: &[u8], out: &mut [u8], wire: u8, back: u8) -> u64
    ensures { outcome result area.now out.new ≡ packet_call area.now out.old wire back }
{
    exports::nci_packet(area, out, wire, back)
}

// What is going on: the controller's phase, the RF state, the unanswered command, packets on the wires, messages in hand and open
// connections, for front ends that say it. It is none of the twelve calls.
#[unsafe(no_mangle)]
pub extern "C" fn nci_state(area: &[u8], out: &mut [u8]) -> u64
    ensures { outcome result area.now out.new ≡ state_call area.now out.old }
{
    exports::nci_state(area, out)
}

// Octets that are read as a packet going up, and nothing else, for front ends that show reserved bits. It is none of the twelve
// calls.
#[unsafe(no_mangle)]
pub extern "C" fn nci_read(octets: &[u8]) -> u64
    ensures { result ≡ read_call octets.now }
{
    exports::nci_read(octets)
}
