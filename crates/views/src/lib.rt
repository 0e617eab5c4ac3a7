// What a record and an area stand for: the state of the model, and what each mover does to it. This crate holds definitions
// and theorems.
#![tactic(auto)]
