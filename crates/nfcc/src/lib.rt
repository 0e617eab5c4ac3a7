// The NFC controller: what it answers to a command, and what follows. No wire and no area is used here.
#![tactic(auto)]

pub mod controller;
pub mod effects;
