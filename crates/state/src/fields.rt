// Where the fields of messages stand in their payload, by the standard's tables. Both ends share them: what one writes at a place, the
// other reads there. A length is that of the message as it is sent here.

// The status, first in every response, and alone in CORE_GENERIC_ERROR_NTF (003, Table 19).
pub const STATUS: usize = 0;

pub const STATUS_LENGTH: usize = 1;

// CORE_CONN_CREATE_CMD (003, Table 14): the destination and the number of its parameters.
pub const CREATE_DESTINATION: usize = 0;

pub const CREATE_PARAMETERS: usize = 1;

// RF_DISCOVER_CMD (003, Table 66): how many pairs, then mode and frequency for each.
pub const CONFIG_COUNT: usize = 0;

pub const CONFIG_MODE: usize = 1;

pub const CONFIG_FREQUENCY: usize = 2;

pub const CONFIG_SIZE: usize = 2;

// RF_DISCOVER_SELECT_CMD (003, Table 77): behind the ID.
pub const SELECT_PROTOCOL: usize = 1;

pub const SELECT_INTERFACE: usize = 2;

// CORE_RESET_NTF (003, Table 5).
pub const RESET_TRIGGER: usize = 0;

pub const RESET_CONFIG: usize = 1;

pub const RESET_VERSION: usize = 2;

pub const RESET_MAKER: usize = 3;

pub const RESET_LENGTH: usize = 5;

// CORE_INIT_RSP (003, Table 8): status and features, how many connections, the routing table, the control payload, HCI and NFC-V, how many
// interfaces, the one that there is, and how many extensions it has.
pub const INIT_CONNS: usize = 5;

pub const INIT_ROUTES: usize = 6;

pub const INIT_CONTROL: usize = 8;

pub const INIT_HCI: usize = 9;

pub const INIT_INTERFACES: usize = 13;

pub const INIT_INTERFACE: usize = 14;

pub const INIT_EXTENSIONS: usize = 15;

pub const INIT_LENGTH: usize = 16;

// CORE_CONN_CREATE_RSP (003, Table 14): behind the status.
pub const CREATE_PAYLOAD: usize = 1;

pub const CREATE_CREDITS: usize = 2;

pub const CREATE_CONN: usize = 3;

pub const CREATE_LENGTH: usize = 4;

// CORE_CONN_CREDITS_NTF (003, Table 18): how many entries, then Conn ID and credits for each.
pub const ENTRY_COUNT: usize = 0;

pub const ENTRY_CONN: usize = 1;

pub const ENTRY_CREDITS: usize = 2;

pub const ENTRY_SIZE: usize = 2;

// RF_DISCOVER_NTF (003, Table 66). The type stands behind the parameters, so many octets further; the length is without them.
pub const FOUND_ID: usize = 0;

pub const FOUND_PROTOCOL: usize = 1;

pub const FOUND_MODE: usize = 2;

pub const FOUND_PARAMS_LENGTH: usize = 3;

pub const FOUND_TYPE: usize = 4;

pub const FOUND_LENGTH: usize = 5;

// RF_INTF_ACTIVATED_NTF (003, Table 78). Behind the parameters, so many octets further: the mode of the data exchange, then its two bit
// rates and the length of the activation parameters. The length is without the parameters.
pub const ACTIVATED_ID: usize = 0;

pub const ACTIVATED_INTERFACE: usize = 1;

pub const ACTIVATED_PROTOCOL: usize = 2;

pub const ACTIVATED_MODE: usize = 3;

pub const ACTIVATED_PAYLOAD: usize = 4;

pub const ACTIVATED_CREDITS: usize = 5;

pub const ACTIVATED_PARAMS_LENGTH: usize = 6;

pub const ACTIVATED_EXCHANGE: usize = 7;

pub const ACTIVATED_RATES: usize = 8;

pub const ACTIVATED_LENGTH: usize = 11;

// RF_DEACTIVATE_NTF (003, Tables 79 to 81).
pub const DEACTIVATE_TYPE: usize = 0;

pub const DEACTIVATE_REASON: usize = 1;

pub const DEACTIVATE_LENGTH: usize = 2;
