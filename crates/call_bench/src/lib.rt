// The calls of the whole bench on octets, fresh, power and report, the reader of a wire's packets, what is going on, and reading
// alone: for each what refuses it, and what it does where nothing does. Their outcomes are defined in calls/specs.
#![tactic(auto)]

pub mod fresh;
pub mod look;
pub mod packet;
pub mod power;
pub mod read;
pub mod report;
