// What is done with requests in lent words, a file an operation. How many requests there can be is how much is lent.
// No function that another crate can name requires anything: each answers for every slice.
#![tactic(auto)]

pub mod ask;
pub mod cancel;
pub mod dispatch;
pub mod fresh;
pub mod remove;
pub mod retrieve;
pub mod start;
pub mod tasks;
