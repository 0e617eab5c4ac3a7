// Where each part stands in the record's octets, and how many octets each struct has, by the names of specs/Layout.antt: each
// number stands here, and nowhere else in the code. Of a struct, SIZE is how many octets it has, and PART where something
// stands in it.
use area::map::{PLACES, RECORD_AT};
use config::table::CONFIG_SIZE;

pub const PROFILE_SIZE: usize = 11;

pub const LOST_PART: usize = 2;

pub const PROGRESS_SIZE: usize = LOST_PART + 1;

pub const RUN_PART: usize = 3;

pub const CONTROL_RUN_SIZE: usize = RUN_PART + PROGRESS_SIZE;

pub const HAND_SIZE: usize = 5;

pub const RING_SIZE: usize = 2;

pub const PENDING_PART: usize = 1;

pub const HOST_SIZE: usize = PENDING_PART + 4;

pub const PAIRS_ROOM: usize = 8;

pub const PAIRS_SIZE: usize = PAIRS_ROOM * 2 + 1;

pub const RF_PART: usize = 2;

pub const SELECTED_PART: usize = RF_PART + 1;

pub const PAIRS_PART: usize = RF_PART + 4;

pub const CONTROLLER_SIZE: usize = PAIRS_PART + PAIRS_SIZE;

pub const HAND_PART: usize = 4;

pub const HOST_RUN_PART: usize = HAND_PART + HAND_SIZE;

pub const HOST_SIDE_SIZE: usize = HOST_RUN_PART + PROGRESS_SIZE;

pub const STORE_PART: usize = 3;

pub const CONTROLLER_RUN_PART: usize = STORE_PART + RING_SIZE;

pub const CONTROLLER_SIDE_SIZE: usize = CONTROLLER_RUN_PART + PROGRESS_SIZE;

pub const COUNTS_SIZE: usize = HOST_SIDE_SIZE + CONTROLLER_SIDE_SIZE;

pub const CONNS_SIZE: usize = PLACES * COUNTS_SIZE;

// The parts of the record.
pub const PROFILE: usize = 0;

pub const HOST: usize = PROFILE + PROFILE_SIZE;

pub const HEARING: usize = HOST + HOST_SIZE;

pub const CONTROLLER: usize = HEARING + CONTROL_RUN_SIZE;

pub const ASKING: usize = CONTROLLER + CONTROLLER_SIZE;

pub const ENDPOINT: usize = ASKING + CONTROL_RUN_SIZE;

pub const CONNS: usize = ENDPOINT + HAND_SIZE;

pub const DOWN: usize = CONNS + CONNS_SIZE;

pub const UP: usize = DOWN + RING_SIZE;

pub const END: usize = UP + RING_SIZE;

// The configuration, which stands right behind the record: where it starts and where it ends in the area.
pub const CONFIG_AT: usize = RECORD_AT + END;

pub const CONFIG_END: usize = CONFIG_AT + CONFIG_SIZE;
