// What is going on on the bench, in 27 octets, for front ends that say it. No octet of the area changes.
ghost use Rattle.std.specs.Prelude.{◌≡◌, ◌≤◌, length, map};
ghost use Rattle.octets.specs.Octets.{splice};
ghost use Rattle.area.specs.Map.{message_size};
ghost use Rattle.calls.specs.Look.{traffic_look, in_hand, counts_look, look_of, look_word};

use call_word::{HANDED_BIT, LENGTH_UNIT};
use record::write;
use state::kinds::{Counts, HostSide, Record};

// Packets on each wire, and whether the endpoint has a message in hand.
#[tactic(auto, unfolding(record::specs::Layout::bit))]
fn traffic_octets(r: Record) -> [u8; 3]
    ensures { result ≡ traffic_look r }
{
    [
        (r.down.count % 256) as u8,
        (r.up.count % 256) as u8,
        r.ends.endpoint.full as u8,
    ]
}

// 1 for a message in hand on a connection that the host has open.
#[tactic(auto, unfolding(record::specs::Layout::bit, calls::specs::Look::in_hand))]
fn in_hand(h: HostSide) -> u8
    ensures { result ≡ in_hand h }
{
    (h.opened & h.hand.full) as u8
}

// Of a connection: open at the host, open at the controller, a message in hand at the host.
#[tactic(auto, unfolding(record::specs::Layout::bit))]
fn counts_octets(k: Counts) -> [u8; 3]
    ensures { result ≡ counts_look k }
{
    [
        k.host.opened as u8,
        k.controller.opened as u8,
        in_hand(k.host),
    ]
}

// Those of each connection.
fn conns_octets(conns: [Counts; 5]) -> [[u8; 3]; 5]
    ensures { result ≡ map counts_look conns }
{
    conns.map(counts_octets)
}

// The octets stand over the buffer's front; past them the buffer keeps its own.
pub fn act(out: &mut [u8], r: Record) -> u64
    requires { message_size ≤ length out.old }
    ensures { (result ≡ look_word) × (out.new ≡ splice out.old 0 (look_of r)) }
{
    octets::put(out, 0, &[write::phase_octet(r.ends.controller.phase)]);
    octets::put(out, 1, &write::rf_octets(r.ends.controller.rf));
    // the unanswered command is what follows the host's size
    let host = write::host_octets(r.ends.host);
    octets::put(out, 5, &host[1..]);
    octets::put(out, 9, &traffic_octets(r));
    octets::put(out, 12, conns_octets(r.ends.conns).as_flattened());
    HANDED_BIT + 27 * LENGTH_UNIT
}
