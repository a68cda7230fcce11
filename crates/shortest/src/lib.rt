// The shortest choice of a script's lines that ends in the same refusal.
#![tactic(auto)]

mod choice;
mod keep;
mod lines;
mod play;
mod search;
pub mod shorten;
