// A record's versions in the cache. A key is a record number.
#![tactic(auto)]

pub mod best;
pub mod lines;
pub mod newest;
pub mod ranked;
pub mod visible;
