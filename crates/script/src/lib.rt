// What the programs that play scripts share: lines taken from reads, the calls that they ask for, and the bytes that
// answers print.
#![tactic(auto)]

pub mod call;
pub mod line;
pub mod print;
