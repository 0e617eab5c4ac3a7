// The standard's numbers under its names, by its tables, as `specs/Names` has them; message types are the packet layer's. Octets of 003
// that have no name there stand as octets where they are used.

// GIDs and OIDs (003, Table 139).
pub const GID_CORE: u8 = 0;

pub const GID_RF: u8 = 1;

// Of GID CORE.
pub const OID_RESET: u8 = 0;

pub const OID_INIT: u8 = 1;

pub const OID_SET_CONFIG: u8 = 2;

pub const OID_GET_CONFIG: u8 = 3;

pub const OID_CONN_CREATE: u8 = 4;

pub const OID_CONN_CLOSE: u8 = 5;

pub const OID_CONN_CREDITS: u8 = 6;

pub const OID_GENERIC_ERROR: u8 = 7;

// Of GID RF.
pub const OID_DISCOVER: u8 = 3;

pub const OID_SELECT: u8 = 4;

pub const OID_ACTIVATED: u8 = 5;

pub const OID_DEACTIVATE: u8 = 6;

// Statuses (003, Table 129).
pub const STATUS_OK: u8 = 0x00;

pub const REJECTED: u8 = 0x01;

pub const SYNTAX_ERROR: u8 = 0x05;

pub const SEMANTIC_ERROR: u8 = 0x06;

pub const INVALID_PARAM: u8 = 0x09;

pub const MESSAGE_SIZE_EXCEEDED: u8 = 0x0A;

pub const ALREADY_STARTED: u8 = 0xA0;

pub const ACTIVATION_FAILED: u8 = 0xA1;

// RF technology and mode (003, Table 131); active poll and active listen end the runs of polling and listening modes.
pub const POLL_ACTIVE: u8 = 0x03;

pub const POLL_V: u8 = 0x06;

pub const LISTEN_A: u8 = 0x80;

pub const LISTEN_B: u8 = 0x81;

pub const LISTEN_F: u8 = 0x82;

pub const LISTEN_ACTIVE: u8 = 0x83;

// Interfaces and destinations (003, Tables 134 and 13).
pub const FRAME_INTERFACE: u8 = 0x01;

pub const LOOPBACK: u8 = 0x01;

// Discovery notifications (003, Table 66).
pub const MORE_FOLLOW: u8 = 2;

// Deactivation: types and reasons (003, Tables 79 to 81).
pub const TO_IDLE: u8 = 0x00;

pub const TO_SLEEP: u8 = 0x01;

pub const TO_SLEEP_AF: u8 = 0x02;

pub const TO_DISCOVERY: u8 = 0x03;

pub const HOST_REQUEST: u8 = 0x00;

pub const ENDPOINT_REQUEST: u8 = 0x01;

pub const LINK_LOSS: u8 = 0x02;
