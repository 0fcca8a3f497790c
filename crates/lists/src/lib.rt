// The run of a command list (document 01, "The list and the answers"): framed whole, then record after record through the monitor.
// `run` requires nothing: it answers for every list and every buffer.
#![tactic(auto)]

mod fresh;
pub mod run;
