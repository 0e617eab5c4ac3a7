// The host's reading of a whole control message (document 01, up under "Calls").
ghost use Rattle.std.specs.Prelude.{◌≡◌, ◌≤◌, Some};
ghost use Rattle.state.specs.Conn.{held_open};
ghost use Rattle.dh.specs.Host.{asked_of, awaits, aim_of, is_busy, is_closing, ok_answer, answer_of, noticed, heard_written, expected, hear_of, credits_for, names_closed, settled, host_answered, host_after, credited, credited_at, all_credited, conns_answered, conns_heard, drop_heard};
ghost use Rattle.dh.specs.Hearing.{entry_for};

use crate::contents;
use crate::contents::Notice;
use state::commands::Command;
use state::kinds::{Asked, Counts, Host, HostSide, Terms};
use state::profile::LEAST_SIZE;
use state::{commands, conn, fields, names};

// What the awaited response says.
#[derive(Clone, Copy)]
pub enum Answer {
    Done,
    ClosesAll,
    Sized(u8),
    Opens(u8, Terms),
    Closes(u8),
}

// What the host hears. Nothing: no effect. Dropped: not for this host now. Neither is None: they differ in the drop flag.
#[derive(Clone, Copy)]
pub enum Heard {
    Nothing,
    Dropped,
    Answered(Answer),
    Activated(Terms),
    Deactivated,
    Credits,
}

// What the host remembers of a command that it sends: CORE_CONN_CLOSE_RSP names no connection, so the one that the command
// named is kept; 1 for a command without octets, which names none.
pub fn asked_of(gid: u8, oid: u8, m: &[u8]) -> Asked
    ensures { result ≡ asked_of gid oid m.now }
{
    let aim = m.first().map_or(1, |first| first % 16);
    Asked { gid, oid, aim }
}

// Whether a response with this GID and OID is the one that the unanswered command awaits.
fn awaits(p: Option<Asked>, gid: u8, oid: u8) -> bool
    ensures { result ≡ awaits p gid oid }
{
    p.is_some_and(|a| (a.gid == gid) & (a.oid == oid))
}

// The connection that the unanswered command named.
fn aim_of(p: Option<Asked>) -> u8
    ensures { result ≡ aim_of p }
{
    p.map_or(0, |a| a.aim)
}

// Whether a command is unanswered.
pub fn is_busy(p: Option<Asked>) -> bool
    ensures { result ≡ is_busy p }
{
    p.is_some()
}

// Whether RESET or CONN_CLOSE is unanswered.
pub fn is_closing(p: Option<Asked>) -> bool
    ensures { result ≡ is_closing p }
{
    p.is_some_and(|a| {
        (a.gid == names::GID_CORE) & matches!(a.oid, names::OID_RESET | names::OID_CONN_CLOSE)
    })
}

// What an OK response says. RF_DEACTIVATE_RSP closes nothing: connection 0 closes with the notification.
fn ok_answer(c: Command, aim: u8, m: &[u8]) -> Answer
    ensures { result ≡ ok_answer c aim m.now }
{
    match c {
        Command::Reset => Answer::ClosesAll,
        Command::Init => Answer::Sized(octets::octet_at(m, fields::INIT_CONTROL)),
        Command::ConnCreate => Answer::Opens(
            octets::octet_at(m, fields::CREATE_CONN),
            Terms {
                payload: octets::octet_at(m, fields::CREATE_PAYLOAD),
                credits: octets::octet_at(m, fields::CREATE_CREDITS),
            },
        ),
        Command::ConnClose => Answer::Closes(aim),
        Command::Discover
        | Command::Select
        | Command::Unknown
        | Command::SetConfig
        | Command::GetConfig
        | Command::Deactivate => Answer::Done,
    }
}

// What a response says: with another status than STATUS_OK only that its command is answered.
#[tactic(auto, unfolding(crate::specs::Host::answer_of))]
fn answer_of(c: Command, aim: u8, m: &[u8]) -> Answer
    ensures { result ≡ answer_of c aim m.now }
{
    if octets::octet_at(m, fields::STATUS) == names::STATUS_OK {
        ok_answer(c, aim, m)
    } else {
        Answer::Done
    }
}

// What a notification says.
fn noticed(n: Notice, m: &[u8]) -> Heard
    ensures { result ≡ noticed (Some n) m.now }
{
    match n {
        Notice::Credits => Heard::Credits,
        Notice::Activated => Heard::Activated(Terms {
            payload: octets::octet_at(m, fields::ACTIVATED_PAYLOAD),
            credits: octets::octet_at(m, fields::ACTIVATED_CREDITS),
        }),
        Notice::Deactivate => Heard::Deactivated,
        Notice::Reset | Notice::GenericError | Notice::Discover => Heard::Nothing,
    }
}

// What is heard in contents that are known to be written here. It must stand behind `contents::written`: it tests no length and no
// value, so a create response that is cut short would open connection 0. A host before a bought controller needs limits of its own.
#[tactic(auto, unfolding(crate::specs::Host::heard_written))]
fn heard_written(p: Option<Asked>, mt: u8, gid: u8, oid: u8, m: &[u8]) -> Heard
    ensures { result ≡ heard_written p mt gid oid m.now }
{
    if mt == packets::RESPONSE {
        Heard::Answered(answer_of(commands::command_of(gid, oid), aim_of(p), m))
    } else {
        contents::notice_of(gid, oid).map_or(Heard::Nothing, |n| noticed(n, m))
    }
}

// Whether the message is for this host now: a notification always is, a response where its command is unanswered.
fn expected(p: Option<Asked>, mt: u8, gid: u8, oid: u8) -> bool
    ensures { result ≡ expected p mt gid oid }
{
    if mt == packets::RESPONSE {
        awaits(p, gid, oid)
    } else {
        mt == packets::NOTIFICATION
    }
}

// What the host hears in a whole control message.
#[tactic(auto, unfolding(crate::specs::Host::hear_of))]
pub fn hear(p: Option<Asked>, mt: u8, gid: u8, oid: u8, m: &[u8]) -> Heard
    ensures { result ≡ hear_of p mt gid oid m.now }
{
    if !expected(p, mt, gid, oid) {
        return Heard::Dropped;
    }
    if contents::written(mt, gid, oid, m) {
        heard_written(p, mt, gid, oid, m)
    } else {
        Heard::Nothing
    }
}

// The credits that entry i of a credit notice has for a Conn ID.
fn entry_for(m: &[u8], i: u8, conn: u8) -> u8
    ensures { result ≡ entry_for m.now i conn }
{
    let id = octets::octet_at(m, fields::ENTRY_CONN + fields::ENTRY_SIZE * i as usize);
    let credits = octets::octet_at(m, fields::ENTRY_CREDITS + fields::ENTRY_SIZE * i as usize);
    if id == conn { credits } else { 0 }
}

// The credits that a credit notice has for a Conn ID, over all of its entries.
pub fn credits_for(m: &[u8], conn: u8) -> usize
    ensures { result ≡ credits_for m.now conn }
{
    let n = octets::octet_at(m, fields::ENTRY_COUNT);
    let mut sum: usize = 0;
    for i in 0..n {
        sum += entry_for(m, i, conn) as usize;
    }
    sum
}

// Whether one of the first n entries is for a connection that is not open at the host.
fn names_closed(conns: [Counts; 5], m: &[u8], n: u8) -> bool
    ensures { result ≡ names_closed (held_open conns) m.now n }
{
    let mut closed = false;
    for i in 0..n {
        let id = octets::octet_at(m, fields::ENTRY_CONN + fields::ENTRY_SIZE * i as usize);
        closed = closed | !conn::held_open(conns, id);
    }
    closed
}

// The host with its command answered, and the size at which its commands are cut.
fn settled(h: Host, size: u8) -> Host
    ensures { result ≡ settled h size }
{
    Host {
        size,
        pending: None,
    }
}

// The host after a response: commands are cut at the size of the INIT response, and at the least size after a RESET.
fn host_answered(h: Host, a: Answer) -> Host
    ensures { result ≡ host_answered h a }
{
    match a {
        Answer::ClosesAll => settled(h, LEAST_SIZE),
        Answer::Sized(n) => settled(h, n),
        Answer::Done | Answer::Opens(_, _) | Answer::Closes(_) => settled(h, h.size),
    }
}

// The host's numbers after what it heard.
#[tactic(auto, unfolding(crate::specs::Host::host_after))]
pub fn host_after(h: Host, x: Heard) -> Host
    ensures { result ≡ host_after h x }
{
    match x {
        Heard::Answered(a) => host_answered(h, a),
        Heard::Nothing
        | Heard::Dropped
        | Heard::Activated(_)
        | Heard::Deactivated
        | Heard::Credits => h,
    }
}

// Credits are added to a connection: open and flow-controlled, it holds so many more; for any other they do nothing.
pub fn credited(s: HostSide, n: usize) -> HostSide
    ensures { result ≡ credited s n }
{
    if s.opened & (s.grant != conn::UNMETERED) {
        HostSide {
            held: conn::credit_sum(s.held, n),
            ..s
        }
    } else {
        s
    }
}

// The credits of a notice are added to one connection. In place and inlined, since each call moves the array.
#[inline(always)]
fn credited_at(mut conns: [Counts; 5], m: &[u8], conn: u8) -> [Counts; 5]
    ensures { result ≡ credited_at conns m.now conn }
{
    let place = conn::place_of(conn);
    if place < 5 {
        conns[place].host = credited(conns[place].host, credits_for(m, conn));
    }
    conns
}

// The credits of a notice are added to all connections, one after the other.
fn all_credited(conns: [Counts; 5], m: &[u8]) -> [Counts; 5]
    ensures { result ≡ all_credited conns m.now }
{
    let a = credited_at(conns, m, 0);
    let b = credited_at(a, m, 2);
    let c = credited_at(b, m, 3);
    let d = credited_at(c, m, 4);
    credited_at(d, m, 5)
}

// The connections after a response.
fn conns_answered(conns: [Counts; 5], a: Answer) -> [Counts; 5]
    ensures { result ≡ conns_answered conns a }
{
    match a {
        Answer::Done | Answer::Sized(_) => conns,
        Answer::ClosesAll => conn::host_all_closed(conns),
        Answer::Opens(id, t) => conn::host_opened_at(conns, id, t),
        Answer::Closes(id) => conn::host_closed_at(conns, id),
    }
}

// The connections after what the host heard.
#[tactic(auto, unfolding(crate::specs::Host::conns_heard))]
pub fn conns_heard(conns: [Counts; 5], m: &[u8], x: Heard) -> [Counts; 5]
    ensures { result ≡ conns_heard conns m.now x }
{
    match x {
        Heard::Nothing | Heard::Dropped => conns,
        Heard::Answered(a) => conns_answered(conns, a),
        Heard::Activated(t) => conn::host_opened_at(conns, 0, t),
        Heard::Deactivated => conn::host_closed_at(conns, 0),
        Heard::Credits => all_credited(conns, m),
    }
}

// The drop flag: the message was not for this host now, or a credit notice has an entry for a connection that is not open.
#[tactic(auto, unfolding(crate::specs::Host::drop_heard))]
pub fn drop_heard(conns: [Counts; 5], m: &[u8], x: Heard) -> bool
    ensures { result ≡ drop_heard (held_open conns) m.now x }
{
    match x {
        Heard::Nothing | Heard::Answered(_) | Heard::Activated(_) | Heard::Deactivated => false,
        Heard::Dropped => true,
        Heard::Credits => names_closed(conns, m, octets::octet_at(m, fields::ENTRY_COUNT)),
    }
}
