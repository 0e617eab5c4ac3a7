// The bench as a reader would explain it: two lists of packets, two ends, twelve calls; and the claim about every list of
// calls. This crate holds definitions and theorems; the calls on octets follow them.
#![tactic(auto)]
