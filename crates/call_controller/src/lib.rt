// credit, air and reply on octets: for each what refuses it, and what it does where nothing does. Their outcomes are defined
// in calls/specs.
#![tactic(auto)]

pub mod airing;
pub mod credit;
pub mod reply;

ghost use Rattle.std.specs.Prelude.{◌≡◌, ◌+◌, ◌≤◌, length, take};
ghost use Rattle.octets.specs.Octets.{splice};
ghost use Rattle.packets.specs.Packet.{packet_of};
ghost use Rattle.packets.specs.Headers.{control_header};
ghost use Rattle.area.specs.Map.{slot_size};

use area::movers;
use messages::layout::Note;
use packets::Header;
use state::runs::CONTROL_LIMIT;

// The notification that is noted goes into a slot, from the buffer that it was written in.
fn put_noted(area: &mut [u8], slot: usize, note: Note, buffer: &[u8; CONTROL_LIMIT])
    requires { (note.len ≤ 255) × (slot + slot_size ≤ length area.old) }
    ensures { area.new ≡ splice area.old slot (packet_of (control_header 3 note.gid note.oid) (take note.len buffer.now)) }
{
    let header = Header {
        mt: packets::NOTIFICATION,
        pbf: false,
        id: note.gid,
        oid: note.oid,
        credits: 0,
        spare: 0,
    };
    movers::put_packet(area, slot, header, &buffer[..note.len]);
}
