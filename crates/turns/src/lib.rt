// The lines that change a room, and one line of a script, whatever it does.
#![tactic(auto)]

pub mod step;
pub mod turn;
