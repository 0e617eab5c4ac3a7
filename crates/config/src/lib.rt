// The configuration parameters of the controller: their one table, their values in the record's octets, and the two commands that set and tell them. No
// wire and no area is in sight here.
#![tactic(auto)]

pub mod get;
pub mod set;
pub mod stored;
pub mod table;
pub mod written;
