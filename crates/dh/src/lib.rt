// The device host: which contents it knows as the controller's, what follows from a message, and what its own steps do to its
// numbers. No wire and no area is used here.
#![tactic(auto)]

pub mod contents;
pub mod host;
pub mod sending;
