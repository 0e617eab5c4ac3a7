// The form of a line of the sheet: the names of events, and what each of them asks.
#![tactic(auto)]

pub mod form;
pub mod names;

// Octets of arguments, more than a line can hold.
pub const ARGS: usize = 1050;
