// The area's octets: its map, rings of slots, and what moves packets and messages between slots, messages and the caller's
// buffers. Nothing here knows of calls or of the record's parts.
#![tactic(auto)]

pub mod map;
pub mod movers;
pub mod ring;
