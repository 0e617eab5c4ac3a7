// What the record holds: its types, and what profiles, connections, radio states, runs of packets, the names of commands, verdicts
// and refusals are, with the standard's numbers and the places of fields. Both ends use this crate.
#![tactic(auto)]

pub mod cold;
pub mod commands;
pub mod conn;
pub mod fields;
pub mod kinds;
pub mod names;
pub mod profile;
pub mod radio;
pub mod refusal;
pub mod runs;
pub mod verdict;
