// "The program and its printed form" (document 01): a list in, its text out. The programs do nothing but read and write.
#![tactic(auto)]

pub mod form;
