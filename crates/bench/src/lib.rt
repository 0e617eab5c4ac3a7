// The bench as a front end calls it: each call takes the area, the message buffer and its arguments, and answers one number
// (calls/specs/Word.antt). What every call does first, what refuses it and what it does is in the crates below.
#![tactic(auto)]

mod attempt;
pub mod exports;
