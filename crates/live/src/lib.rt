// The live transactions: their places, and the commit times that they know.
#![tactic(auto)]

pub mod places;
pub mod times;
