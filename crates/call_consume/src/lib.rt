// consume on octets: what refuses it, and what it does where nothing does. Its outcome is defined in calls/specs.
#![tactic(auto)]

pub mod consume;
