// The run of a list over lent tables.
#![tactic(auto)]

pub mod fresh;
pub mod run;
