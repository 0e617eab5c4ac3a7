// The air: what an event of the RF field is, whether the controller takes it, and what it then sends. No wire and no area is
// used here.
#![tactic(auto)]

pub mod effects;
pub mod events;
