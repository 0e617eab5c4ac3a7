// What a second implementation of the bench answers to lists of calls, computed by the model. This crate holds definitions
// and equations, and no function.
#![tactic(auto)]
