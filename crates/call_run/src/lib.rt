// Run to rest on octets: which move comes next, the move itself, and moves until none is left. Its outcome is defined in
// calls/specs.
#![tactic(auto)]

pub mod choice;
pub mod run;
