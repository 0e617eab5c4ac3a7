// Both ends: what is decided on a command, a control message and an event of the air, and the numbers after it.
#![tactic(auto)]

pub mod command;
pub mod event;
pub mod message;
