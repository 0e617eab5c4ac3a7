// Text: words, fields of a line, capital hexadecimal digits and decimal numbers, read from a slice and written into one;
// and input that comes in pieces, line by line. Nothing here knows of NCI.
#![tactic(auto)]

pub mod fields;
pub mod find;
pub mod hex;
pub mod input;
pub mod write;
