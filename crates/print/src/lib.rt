// Document 01, "The program and its printed form": answers as lines of text.
// No function that a caller can name requires anything: each answers for every list of bytes and every buffer.
#![tactic(auto)]

pub mod lines;
mod text;
