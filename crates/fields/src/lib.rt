// Lists of bytes: their parts, numbers in fields of any width, and blocks of a medium.
#![tactic(auto)]

pub mod block;
pub mod field;
