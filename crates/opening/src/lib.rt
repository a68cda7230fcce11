// Opening: whether a medium is well formed, and what is made of it: redo, the numbers that wait, places, the state.
#![tactic(auto)]

pub mod places;
pub mod redo;
pub mod survey;
pub mod waiting;
