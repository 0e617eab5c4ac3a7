// Credits on the up wire: what the packets of a ring have for a connection. The header of each is read, and three messages are
// looked into: what other packets have as payload, nobody asks.
ghost use Rattle.std.specs.Prelude.{◌≡◌, ◌+◌, ◌≤◌, ◌<◌, length, eqb, Some};
ghost use Rattle.octets.specs.Octets.{pick};
ghost use Rattle.area.specs.Map.{wire_slots, wire_size};
ghost use Rattle.area.specs.Ring.{trim, packets_in};
ghost use Rattle.state.specs.Conn.{metered};
ghost use Rattle.wires.specs.Counted.{is_named, inside_of, credits_inside, counted_on, counted_up};

use crate::nth_slot;
use dh::{contents, host};
use octets::choose;
use packets::Header;
use state::kinds::Ring;
use state::names::{GID_CORE, GID_RF, OID_ACTIVATED, OID_CONN_CREATE, OID_CONN_CREDITS};
use state::{conn, fields};

// What has credits inside: a CORE_CONN_CREDITS_NTF, an RF_INTF_ACTIVATED_NTF, the CORE_CONN_CREATE_RSP that opens a connection.
#[derive(Clone, Copy)]
pub enum Inside {
    CreditsNtf,
    ActivatedNtf,
    CreateRsp,
}

// Whether it is a packet of the control message with this MT, GID and OID.
fn is_named(h: Header, mt: u8, gid: u8, oid: u8) -> bool
    ensures { result ≡ is_named h mt gid oid }
{
    (h.mt == mt) & (h.id == gid) & (h.oid == oid)
}

// What a packet with this header has inside, which states n octets of payload.
#[tactic(auto, unfolding(crate::specs::Counted::inside_of))]
fn inside_of(h: Header, n: usize) -> Option<Inside>
    ensures { result ≡ inside_of h n }
{
    if h.pbf {
        return None;
    }
    if is_named(h, packets::NOTIFICATION, GID_CORE, OID_CONN_CREDITS) {
        return Some(Inside::CreditsNtf);
    }
    if is_named(h, packets::NOTIFICATION, GID_RF, OID_ACTIVATED) {
        return Some(Inside::ActivatedNtf);
    }
    if is_named(h, packets::RESPONSE, GID_CORE, OID_CONN_CREATE) & (n == fields::CREATE_LENGTH) {
        return Some(Inside::CreateRsp);
    }
    None
}

// The credits n of connection id, for the connection: those that data carries, or what a grant counts for.
fn carried(id: u8, n: u8, conn: u8) -> u8
    ensures { result ≡ pick (eqb id conn) n 0 }
{
    if id == conn { n } else { 0 }
}

// The credits that an opening of connection id has for the connection: the grant, which counts as nothing without flow control.
fn granted(id: u8, credits: u8, conn: u8) -> u8
    ensures { result ≡ pick (eqb id conn) (metered credits) 0 }
{
    carried(id, conn::metered(credits), conn)
}

// The credits of a credit notice for the connection.
#[tactic(auto, using(crate::proofs::Few::notice_few))]
fn notice_credits(m: &[u8], conn: u8) -> u8
    ensures { result ≡ credits_inside conn m.now (Some Inside.CreditsNtf) }
{
    if contents::credits_written(m) {
        host::credits_for(m, conn) as u8
    } else {
        0
    }
}

// The grant of an activation, where the connection is 0.
fn activated_credits(m: &[u8], conn: u8) -> u8
    ensures { result ≡ credits_inside conn m.now (Some Inside.ActivatedNtf) }
{
    let credits = octets::octet_at(m, fields::ACTIVATED_CREDITS);
    let grant = granted(0, credits, conn);
    choose(contents::activated_written(m), grant, 0)
}

// The grant of a create response, where it opens the connection.
fn create_credits(m: &[u8], conn: u8) -> u8
    ensures { result ≡ credits_inside conn m.now (Some Inside.CreateRsp) }
{
    let credits = octets::octet_at(m, fields::CREATE_CREDITS);
    let grant = granted(octets::octet_at(m, fields::CREATE_CONN), credits, conn);
    choose(contents::create_written(m), grant, 0)
}

// The credits inside a message for the connection.
fn inside_credits(x: Inside, m: &[u8], conn: u8) -> u8
    ensures { result ≡ credits_inside conn m.now (Some x) }
{
    match x {
        Inside::CreditsNtf => notice_credits(m, conn),
        Inside::ActivatedNtf => activated_credits(m, conn),
        Inside::CreateRsp => create_credits(m, conn),
    }
}

// The credits for the connection in the packet that a slot starts with.
#[tactic(auto, using(crate::proofs::Counted::counted_none, crate::proofs::Counted::counted_data, crate::proofs::Counted::counted_control))]
pub fn credits_on(slot: &[u8], conn: u8) -> u8
    ensures { result ≡ counted_on conn (trim slot.now) }
{
    let Some((h, n)) = packets::read(slot) else {
        return 0;
    };
    if h.mt == packets::DATA {
        return carried(h.id, h.credits, conn);
    }
    inside_of(h, n).map_or(0, |x| inside_credits(x, packets::payload(slot, n), conn))
}

// Credits for the connection, over the packets of the ring at base. A loop, here and in `down::data_count`: with a closure in
// `.map(..).sum()` the bound of the sum (`sum-requires-clause-fits`) and `returns` stayed open.
pub fn credits_up(area: &[u8], base: usize, r: Ring, conn: u8) -> usize
    requires { (r.head < wire_slots) × (r.count ≤ wire_slots) × (base + wire_size ≤ length area.now) }
    ensures { result ≡ counted_up conn (packets_in base wire_slots area.now r) }
{
    let mut sum = 0;
    for i in 0..r.count {
        sum += credits_on(nth_slot(area, base, r, i), conn) as usize;
    }
    sum
}
