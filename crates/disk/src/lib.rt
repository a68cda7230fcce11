// A room whose medium lies in a file: which bytes a line changes, and which sizes a file names.
#![tactic(auto)]

pub mod block;
pub mod named;
pub mod step;
