// The record in the last 512 octets of the area: read, written, judged, and loaded for a call; the values of the configuration parameters behind it.
#![tactic(auto)]

pub mod judge;
pub mod load;
pub mod parameters;
pub mod places;
pub mod read;
pub mod write;
