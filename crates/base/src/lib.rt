// The words every part uses, and their laws: they stand in specs/. And lists of numbers as sets, and bytes laid over bytes, as functions.
#![tactic(auto)]

pub mod bytes;
pub mod names;
pub mod sets;
