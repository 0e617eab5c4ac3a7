// A call, or a press of Run to rest, by its name and the octets of its arguments, made as C makes it.
ghost use Rattle.std.specs.Prelude.{◌≡◌};
ghost use Rattle.calls.specs.Outcome.{outcome};
ghost use Rattle.sheet.specs.Play.{played};

use bench::exports::{
    nci_air, nci_command, nci_consume, nci_credit, nci_down, nci_fresh, nci_power, nci_push,
    nci_read, nci_reply, nci_report, nci_run, nci_send, nci_up,
};
use forms::names::Name;
use octets::{octet_at, window};

// Makes the call. A line of another form makes none, and its answer is 3.
pub fn play(area: &mut [u8], out: &mut [u8], name: Name, args: &[u8]) -> u64
    ensures { outcome result area.new out.new ≡ played name args.now area.old out.old }
{
    let first = octet_at(args, 0);
    match name {
        Name::Fresh => nci_fresh(area, out, args),
        Name::Power => nci_power(area, out),
        Name::Command => nci_command(
            area,
            out,
            first,
            octet_at(args, 1),
            window(args, 2, args.len()),
        ),
        Name::Send => nci_send(area, out, first, window(args, 1, args.len())),
        Name::Push => nci_push(area, out, first),
        Name::Down => nci_down(area, out),
        Name::Consume => nci_consume(area, out, first),
        Name::Credit => nci_credit(area, out),
        Name::Air => nci_air(area, out, args),
        Name::Reply => nci_reply(area, out),
        Name::Up => nci_up(area, out),
        Name::Report => nci_report(area, out, first),
        Name::Read => nci_read(args),
        Name::Bad => 3,
        Name::Run => nci_run(area, out),
    }
}
