// The types of the record (document 01, "Profile, record and area").

// What a connection is opened with: the octets for payload and credits of a create response or an activation.
#[derive(Clone, Copy)]
pub struct Terms {
    pub payload: u8,
    pub credits: u8,
}

// The profile: most control payload, the terms of each of the dynamic connections 2, 3, 4 and 5, and those of the static RF connection.
#[derive(Clone, Copy)]
pub struct Profile {
    pub control: u8,
    pub two: Terms,
    pub three: Terms,
    pub four: Terms,
    pub five: Terms,
    pub fixed: Terms,
}

// An RF discovery ID with its protocol, as found and as selected.
#[derive(Clone, Copy, PartialEq, Eq)]
pub struct Pair {
    pub id: u8,
    pub protocol: u8,
}

#[derive(Clone, Copy)]
pub struct Activation {
    pub id: u8,
    pub protocol: u8,
    pub mode: u8,
}

// The RF states (003, 5.2). W4_HOST_SELECT carries the selection, if there is one.
#[derive(Clone, Copy)]
pub enum Rf {
    Idle,
    Discovery,
    W4AllDiscoveries,
    W4HostSelect(Option<Pair>),
    PollActive(Activation),
    ListenActive(Activation),
    ListenSleep,
}

// The pairs found so far, the first count of the list. The rest keeps its octets, which the record reads and writes (`decode_of`, `encode_of`).
#[derive(Clone, Copy)]
pub struct Pairs {
    pub list: [Pair; 8],
    pub count: usize,
}

// How far a message is reassembled: its octets so far, or a run that went past its limit and is lost. No Option: a record in octets has
// a length beside lost too, and it stays (`decode_of`, `encode_of`).
#[derive(Clone, Copy)]
pub struct Progress {
    pub len: usize,
    pub lost: bool,
}

// A run of control packets: which message they belong to, and how far it is.
#[derive(Clone, Copy)]
pub struct ControlRun {
    pub mt: u8,
    pub gid: u8,
    pub oid: u8,
    pub run: Progress,
}

// The controller before its first RESET, after a RESET, and after INIT.
#[derive(Clone, Copy)]
pub enum Phase {
    Cold,
    Reset,
    Ready,
}

// The controller's numbers. given: the Conn ID last given, 0 for none. No Option: 2 comes next after every number below 2, and None would
// be one case more in `after`.
#[derive(Clone, Copy)]
pub struct Controller {
    pub phase: Phase,
    pub given: u8,
    pub rf: Rf,
    pub pairs: Pairs,
}

// What the host remembers of a command. aim: the low four bits of its first octet, the connection that CONN_CLOSE names.
#[derive(Clone, Copy)]
pub struct Asked {
    pub gid: u8,
    pub oid: u8,
    pub aim: u8,
}

// The host's numbers. size: the payload at which commands are cut; pending: the unanswered command.
#[derive(Clone, Copy)]
pub struct Host {
    pub size: u8,
    pub pending: Option<Asked>,
}

// A message in hand, the one that an end is sending: whether there is one, its length, and how much of it has gone. No Option: a record in
// octets has numbers where there is none too, and they stay (`decode_of`, `encode_of`).
#[derive(Clone, Copy)]
pub struct Hand {
    pub full: bool,
    pub len: usize,
    pub at: usize,
}

// Packets in a ring of slots: the first one's slot, and how many there are.
#[derive(Clone, Copy)]
pub struct Ring {
    pub head: usize,
    pub count: usize,
}

// A connection at the host. opened: a flag, since a closed one's octets stay too. grant: the credits octet it was opened with; held:
// credits left, both 255 without flow control.
#[derive(Clone, Copy)]
pub struct HostSide {
    pub opened: bool,
    pub payload: u8,
    pub grant: u8,
    pub held: u8,
    pub hand: Hand,
    pub run: Progress,
}

// A connection at the controller. opened: a flag, as at the host. owed: credits for packets consumed, not yet put in a notice nor inside
// a data packet.
#[derive(Clone, Copy)]
pub struct ControllerSide {
    pub opened: bool,
    pub grant: u8,
    pub owed: u8,
    pub store: Ring,
    pub run: Progress,
}

// The counts of one connection.
#[derive(Clone, Copy)]
pub struct Counts {
    pub host: HostSide,
    pub controller: ControllerSide,
}

// Both ends: what the record holds besides the wires. hearing: the host's control run. asking: the controller's. endpoint:
// the message that the endpoint is sending on connection 0. conns: the counts of connections 0, 2, 3, 4, 5, in this order.
#[derive(Clone, Copy)]
pub struct Ends {
    pub profile: Profile,
    pub host: Host,
    pub hearing: ControlRun,
    pub controller: Controller,
    pub asking: ControlRun,
    pub endpoint: Hand,
    pub conns: [Counts; 5],
}

// The record: both ends, and the rings of the two wires.
#[derive(Clone, Copy)]
pub struct Record {
    pub ends: Ends,
    pub down: Ring,
    pub up: Ring,
}
