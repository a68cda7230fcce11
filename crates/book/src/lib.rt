// The book behind `stripbook`: what a line of its script asks for, does and prints.
#![tactic(auto)]

pub mod call;
pub mod play;
pub mod room;
