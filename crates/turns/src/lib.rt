// One record on lent tables, in place; and a list of them.
#![tactic(auto)]

mod ask;
mod obey;
pub mod settle;
pub mod turn;
