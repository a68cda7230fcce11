// A room of a script: what a line of `replay` does to medium, cache and state, and what it prints.
#![tactic(auto)]

pub mod look;
pub mod parts;
pub mod plan;
