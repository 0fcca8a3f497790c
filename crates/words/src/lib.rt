// Tables as words in lent memory: a word read and stored, where a row stands, a row less; and what a command says.
// No function requires anything: each answers for every slice.
#![tactic(auto)]

pub mod cells;
pub mod rows;
pub mod said;
