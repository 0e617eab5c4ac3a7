// command, send and push on octets: for each what refuses it, and what it does where nothing does. Their outcomes are defined
// in calls/specs.
#![tactic(auto)]

pub mod command;
pub mod push;
pub mod send;
