// Contents that the bench's controller writes (document 01, "Contents never written here have no effect", up under "Calls"): its
// layouts at their exact lengths, with values inside its limits.
ghost use Rattle.std.specs.Prelude.{◌≡◌, ◌≤◌, Some};
ghost use Rattle.dh.specs.Contents.{notice_of, status_alone, alone, zeros, init_written, create_written, ok_written, reset_written, entry_ok, entries_ok, credits_written, discover_written, activated_written, deactivate_written, notice_written, written};
ghost use Rattle.dh.specs.Hearing.{init_front, activated_front, ascends};

use config::written::{get_written, set_written};
use state::commands::Command;
use state::profile::{LEAST_SIZE, credits_ok};
use state::{commands, conn, fields, names, radio};

// The notifications that the bench knows.
#[derive(Clone, Copy)]
pub enum Notice {
    Reset,
    Credits,
    GenericError,
    Discover,
    Activated,
    Deactivate,
}

// The notification with this GID and OID (003, Table 139), if the bench knows it.
#[tactic(auto, unfolding(crate::specs::Contents::notice_of))]
pub fn notice_of(gid: u8, oid: u8) -> Option<Notice>
    ensures { result ≡ notice_of gid oid }
{
    match gid {
        names::GID_CORE => match oid {
            names::OID_RESET => Some(Notice::Reset),
            names::OID_CONN_CREDITS => Some(Notice::Credits),
            names::OID_GENERIC_ERROR => Some(Notice::GenericError),
            _ => None,
        },
        names::GID_RF => match oid {
            names::OID_DISCOVER => Some(Notice::Discover),
            names::OID_ACTIVATED => Some(Notice::Activated),
            names::OID_DEACTIVATE => Some(Notice::Deactivate),
            _ => None,
        },
        _ => None,
    }
}

// A response of one octet, a status other than STATUS_OK.
fn status_alone(m: &[u8]) -> bool
    ensures { result ≡ status_alone m.now }
{
    (m.len() == fields::STATUS_LENGTH) & (octets::octet_at(m, fields::STATUS) != names::STATUS_OK)
}

// A message of one octet, this status.
fn alone(m: &[u8], status: u8) -> bool
    ensures { result ≡ alone status m.now }
{
    (m.len() == fields::STATUS_LENGTH) & (octets::octet_at(m, fields::STATUS) == status)
}

// Whether the n octets from index i on are all 00: fields that the bench's controller has nothing to say in.
fn zeros(m: &[u8], i: usize, n: usize) -> bool
    requires { (i ≤ 1024) × (n ≤ 16) }
    ensures { result ≡ zeros m.now i n }
{
    let mut all = true;
    for k in 0..n {
        all = all & (octets::octet_at(m, i + k) == 0x00);
    }
    all
}

// The front of a CORE_INIT_RSP, up to the control payload.
fn init_front(m: &[u8]) -> bool
    ensures { result ≡ init_front m.now }
{
    (m.len() == fields::INIT_LENGTH)
        & zeros(m, fields::STATUS, 5)
        & (octets::octet_at(m, fields::INIT_CONNS) == 0x04)
        & zeros(m, fields::INIT_ROUTES, 2)
}

// A CORE_INIT_RSP of the bench: 16 octets, of which the control payload alone is free.
#[tactic(auto, unfolding(crate::specs::Contents::init_written))]
fn init_written(m: &[u8]) -> bool
    ensures { result ≡ init_written m.now }
{
    init_front(m)
        & (LEAST_SIZE <= octets::octet_at(m, fields::INIT_CONTROL))
        & zeros(m, fields::INIT_HCI, 4)
        & (octets::octet_at(m, fields::INIT_INTERFACES) == 0x01)
        & (octets::octet_at(m, fields::INIT_INTERFACE) == names::FRAME_INTERFACE)
        & zeros(m, fields::INIT_EXTENSIONS, 1)
}

// A CORE_CONN_CREATE_RSP that opens one of the connections 2-5.
#[tactic(auto, unfolding(crate::specs::Contents::create_written))]
pub fn create_written(m: &[u8]) -> bool
    ensures { result ≡ create_written m.now }
{
    let id = octets::octet_at(m, fields::CREATE_CONN);
    (m.len() == fields::CREATE_LENGTH)
        & (octets::octet_at(m, fields::STATUS) == names::STATUS_OK)
        & (1 <= octets::octet_at(m, fields::CREATE_PAYLOAD))
        & credits_ok(octets::octet_at(m, fields::CREATE_CREDITS))
        & (2 <= id)
        & (id <= 5)
}

// A response as the bench's controller writes it beside a status alone: an OK response, and for the configuration commands also a list
// of parameters under the status 09.
fn ok_written(c: Command, m: &[u8]) -> bool
    ensures { result ≡ ok_written c m.now }
{
    match c {
        Command::Reset
        | Command::ConnClose
        | Command::Discover
        | Command::Select
        | Command::Deactivate => alone(m, names::STATUS_OK),
        Command::Init => init_written(m),
        Command::ConnCreate => create_written(m),
        Command::Unknown => false,
        Command::SetConfig => set_written(m),
        Command::GetConfig => get_written(m),
    }
}

// A CORE_RESET_NTF of the bench: after a command, NCI 2.0, no manufacturer.
fn reset_written(m: &[u8]) -> bool
    ensures { result ≡ reset_written m.now }
{
    (m.len() == fields::RESET_LENGTH)
        & (octets::octet_at(m, fields::RESET_TRIGGER) == 0x02)
        & (octets::octet_at(m, fields::RESET_CONFIG) <= 1)
        & (octets::octet_at(m, fields::RESET_VERSION) == 0x20)
        & zeros(m, fields::RESET_MAKER, 2)
}

// Entry i of a CORE_CONN_CREDITS_NTF: a Conn ID that there is, with 1-8 credits.
fn entry_ok(m: &[u8], i: u8) -> bool
    ensures { result ≡ entry_ok m.now i }
{
    let id = octets::octet_at(m, fields::ENTRY_CONN + fields::ENTRY_SIZE * i as usize);
    let credits = octets::octet_at(m, fields::ENTRY_CREDITS + fields::ENTRY_SIZE * i as usize);
    (conn::place_of(id) < 5) & (1 <= credits) & (credits <= 8)
}

// Whether entry i's Conn ID is above that of the entry before it.
fn ascends(m: &[u8], i: u8) -> bool
    ensures { result ≡ ascends m.now i }
{
    if i == 0 {
        return true;
    }
    let last = octets::octet_at(
        m,
        fields::ENTRY_CONN + fields::ENTRY_SIZE * (i - 1) as usize,
    );
    let id = octets::octet_at(m, fields::ENTRY_CONN + fields::ENTRY_SIZE * i as usize);
    last < id
}

// The first n entries, each with its Conn ID above the last one's.
fn entries_ok(m: &[u8], n: u8) -> bool
    ensures { result ≡ entries_ok m.now n }
{
    let mut all = true;
    for i in 0..n {
        all = all & entry_ok(m, i) & ascends(m, i);
    }
    all
}

// A CORE_CONN_CREDITS_NTF of the bench: 1-5 entries, and no octet more.
#[tactic(auto, unfolding(crate::specs::Contents::credits_written))]
pub fn credits_written(m: &[u8]) -> bool
    ensures { result ≡ credits_written m.now }
{
    let n = octets::octet_at(m, fields::ENTRY_COUNT);
    (1 <= n)
        & (n <= 5)
        & (m.len() == fields::ENTRY_CONN + fields::ENTRY_SIZE * n as usize)
        & entries_ok(m, n)
}

// An RF_DISCOVER_NTF of the bench.
#[tactic(auto, unfolding(crate::specs::Contents::discover_written))]
fn discover_written(m: &[u8]) -> bool
    ensures { result ≡ discover_written m.now }
{
    let n = octets::octet_at(m, fields::FOUND_PARAMS_LENGTH) as usize;
    radio::id_ok(octets::octet_at(m, fields::FOUND_ID))
        & radio::polls(octets::octet_at(m, fields::FOUND_MODE))
        & (n <= 32)
        & (m.len() == fields::FOUND_LENGTH + n)
        & (octets::octet_at(m, fields::FOUND_TYPE + n) <= names::MORE_FOLLOW)
}

// The front of an RF_INTF_ACTIVATED_NTF, up to the payload size of connection 0: the Frame interface alone.
fn activated_front(m: &[u8]) -> bool
    ensures { result ≡ activated_front m.now }
{
    let mode = octets::octet_at(m, fields::ACTIVATED_MODE);
    radio::id_ok(octets::octet_at(m, fields::ACTIVATED_ID))
        & (octets::octet_at(m, fields::ACTIVATED_INTERFACE) == names::FRAME_INTERFACE)
        & (radio::polls(mode) | radio::listens(mode))
        & (1 <= octets::octet_at(m, fields::ACTIVATED_PAYLOAD))
}

// An RF_INTF_ACTIVATED_NTF of the bench: its mode stands twice, and it has no activation parameters.
#[tactic(auto, unfolding(crate::specs::Contents::activated_written))]
pub fn activated_written(m: &[u8]) -> bool
    ensures { result ≡ activated_written m.now }
{
    let mode = octets::octet_at(m, fields::ACTIVATED_MODE);
    let n = octets::octet_at(m, fields::ACTIVATED_PARAMS_LENGTH) as usize;
    activated_front(m)
        & credits_ok(octets::octet_at(m, fields::ACTIVATED_CREDITS))
        & (n <= 32)
        & (m.len() == fields::ACTIVATED_LENGTH + n)
        & (octets::octet_at(m, fields::ACTIVATED_EXCHANGE + n) == mode)
        & zeros(m, fields::ACTIVATED_RATES + n, 3)
}

// An RF_DEACTIVATE_NTF of the bench: of any type where the host asked, or the endpoint's sleep, lost link or release.
#[tactic(auto, unfolding(crate::specs::Contents::deactivate_written))]
fn deactivate_written(m: &[u8]) -> bool
    ensures { result ≡ deactivate_written m.now }
{
    let kind = octets::octet_at(m, fields::DEACTIVATE_TYPE);
    let reason = octets::octet_at(m, fields::DEACTIVATE_REASON);
    (m.len() == fields::DEACTIVATE_LENGTH)
        & (((kind <= names::TO_DISCOVERY) & (reason == names::HOST_REQUEST))
            | ((kind == names::TO_SLEEP) & (reason == names::ENDPOINT_REQUEST))
            | ((kind == names::TO_DISCOVERY)
                & (names::ENDPOINT_REQUEST <= reason)
                & (reason <= names::LINK_LOSS)))
}

// A notification as the bench's controller writes it.
fn notice_written(n: Notice, m: &[u8]) -> bool
    ensures { result ≡ notice_written (Some n) m.now }
{
    match n {
        Notice::Reset => reset_written(m),
        Notice::Credits => credits_written(m),
        // a CORE_GENERIC_ERROR_NTF: the activation failed
        Notice::GenericError => alone(m, names::ACTIVATION_FAILED),
        Notice::Discover => discover_written(m),
        Notice::Activated => activated_written(m),
        Notice::Deactivate => deactivate_written(m),
    }
}

// The one guard: contents of a response or a notification that the bench's own controller could have written.
#[tactic(auto, unfolding(crate::specs::Contents::written))]
pub fn written(mt: u8, gid: u8, oid: u8, m: &[u8]) -> bool
    ensures { result ≡ written mt gid oid m.now }
{
    if mt == packets::RESPONSE {
        status_alone(m) | ok_written(commands::command_of(gid, oid), m)
    } else {
        notice_of(gid, oid).is_some_and(|n| notice_written(n, m))
    }
}
