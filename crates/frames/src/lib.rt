// A command list and its answers: framing, the reader over a list, the answer writer (document 01, "The list and the answers").
// Nothing here knows what a command does. No function that a caller can name requires anything: each answers for every
// list, every place in it, every buffer and every answer.
#![tactic(auto)]

pub mod action;
pub mod framing;
pub mod reading;
pub mod refused;
pub mod writing;
