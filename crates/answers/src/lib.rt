// What the calls answer, put as text: answers, lists of changes, and blocks in hex.
#![tactic(auto)]

pub mod text;
