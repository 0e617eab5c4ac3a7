// The calls on octets: the outcome of each, that it is the model's step, and the claim about every list of calls. This crate
// holds definitions and theorems; the code that meets them stands above it.
#![tactic(auto)]
