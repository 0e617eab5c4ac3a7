// The messages of the controller: the octets of every response and notification that it sends, written into the caller's buffer.
#![tactic(auto)]

pub mod layout;
