// A whole control message at the host (document 01, up under "Calls").
ghost use Rattle.std.specs.Prelude.{◌≡◌};
ghost use Rattle.ends.specs.Steps.{heeded};

use dh::host;
use dh::host::Heard;
use state::kinds::Ends;

// What was heard, the drop flag, and both ends' numbers after it.
#[derive(Clone, Copy)]
pub struct Heeded {
    pub heard: Heard,
    pub dropped: bool,
    pub next: Ends,
}

// What the host makes of a control message.
pub fn heed(e: Ends, mt: u8, gid: u8, oid: u8, m: &[u8]) -> Heeded
    ensures { result ≡ heeded e mt gid oid m.now }
{
    let heard = host::hear(e.host.pending, mt, gid, oid, m);
    let next = Ends {
        host: host::host_after(e.host, heard),
        conns: host::conns_heard(e.conns, m, heard),
        ..e
    };
    Heeded {
        heard,
        dropped: host::drop_heard(e.conns, m, heard),
        next,
    }
}
