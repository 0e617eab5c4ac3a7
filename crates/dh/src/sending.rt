// The host's own steps, by its numbers: a message is put in hand, the next packet of it goes, a command is given. Each says what the
// step leaves; whether it may be taken is asked before it.
ghost use Rattle.std.specs.Prelude.{◌≡◌, ◌-◌};
ghost use Rattle.octets.specs.Octets.{pick};
ghost use Rattle.state.specs.Conn.{flows};
ghost use Rattle.dh.specs.Sending.{sent_side, pushed_side, commanded_host};

use crate::host::asked_of;
use state::conn;
use state::kinds::{Host, HostSide};

// The connection with a message of n octets in hand.
pub fn sent(h: HostSide, n: usize) -> HostSide
    ensures { result ≡ sent_side n h }
{
    HostSide {
        hand: conn::hand_with(n),
        ..h
    }
}

// The credits held after a packet has gone.
fn spent(grant: u8, held: u8) -> u8
    ensures { result ≡ pick (flows grant) (held - 1) held }
{
    if grant == conn::UNMETERED {
        held
    } else {
        held.saturating_sub(1)
    }
}

// The connection after a packet of the message in hand has gone.
pub fn pushed(h: HostSide) -> HostSide
    ensures { result ≡ pushed_side h }
{
    HostSide {
        held: spent(h.grant, h.held),
        hand: conn::hand_after(h.payload as usize, h.hand),
        ..h
    }
}

// The host with the command unanswered.
pub fn commanded(h: Host, gid: u8, oid: u8, payload: &[u8]) -> Host
    ensures { result ≡ commanded_host h gid oid payload.now }
{
    Host {
        pending: Some(asked_of(gid, oid, payload)),
        ..h
    }
}
