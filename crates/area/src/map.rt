// The map of the area, by the names of specs/Map.antt: each number stands here, and nowhere else in the code.
ghost use Rattle.std.specs.Prelude.{◌≡◌, ◌<◌};
ghost use Rattle.area.specs.Map.{places, store_at, hand_at, host_run_at, controller_run_at};

use state::runs::{CONTROL_LIMIT, DATA_LIMIT};

// Octets of the area, and of the record's room at its end.
pub const AREA: usize = 36864;

pub const RECORD_ROOM: usize = 512;

// A packet's header, the longest payload, and a slot: the longest packet.
pub const HEADER: usize = 3;

pub const PAYLOAD: usize = 255;

pub const SLOT: usize = HEADER + PAYLOAD;

// Slots of a wire and of a store.
pub const WIRE: usize = 16;

pub const STORE: usize = 8;

// The longest message, and the longest control message.
pub const MESSAGE: usize = DATA_LIMIT;

pub const CONTROL: usize = CONTROL_LIMIT;

// Places of connections.
pub const PLACES: usize = 5;

// The two wires.
pub const DOWN_AT: usize = 0;

pub const UP_AT: usize = DOWN_AT + WIRE * SLOT;

// Of each place: the controller's store, and the message in hand at the host.
const STORES_AT: usize = UP_AT + WIRE * SLOT;

const HANDS_AT: usize = STORES_AT + PLACES * STORE * SLOT;

// The endpoint's message.
pub const ENDPOINT_AT: usize = HANDS_AT + PLACES * MESSAGE;

// Of each place: messages in reassembly at the host, and at the controller.
const HOST_RUNS_AT: usize = ENDPOINT_AT + MESSAGE;

const CONTROLLER_RUNS_AT: usize = HOST_RUNS_AT + PLACES * MESSAGE;

// The control runs: at the controller, and at the host.
pub const ASKING_AT: usize = CONTROLLER_RUNS_AT + PLACES * MESSAGE;

pub const HEARING_AT: usize = ASKING_AT + CONTROL;

pub const RECORD_AT: usize = AREA - RECORD_ROOM;

// One line each: in place of the four, one function of a start and a place would need every caller to know the start.

// Where the store of a place starts.
pub fn store_at(place: usize) -> usize
    requires { place < places }
    ensures { result ≡ store_at place }
{
    place * (STORE * SLOT) + STORES_AT
}

// Where the message in hand of a place starts.
pub fn hand_at(place: usize) -> usize
    requires { place < places }
    ensures { result ≡ hand_at place }
{
    place * MESSAGE + HANDS_AT
}

// Where the run of a place starts, at the host and at the controller.
pub fn host_run_at(place: usize) -> usize
    requires { place < places }
    ensures { result ≡ host_run_at place }
{
    place * MESSAGE + HOST_RUNS_AT
}

pub fn controller_run_at(place: usize) -> usize
    requires { place < places }
    ensures { result ≡ controller_run_at place }
{
    place * MESSAGE + CONTROLLER_RUNS_AT
}
