// The bytes of the medium: fields, slots, pages, log records and blocks, the pair table and the master.
#![tactic(auto)]

pub mod item;
pub mod journal;
pub mod master;
pub mod page;
pub mod place;
pub mod slot;
pub mod table;

// A transaction's number.
#[derive(Clone, Copy, PartialEq, Eq, PartialOrd, Ord, Debug)]
pub struct TxNumber(pub u64);

// The time of a commit.
#[derive(Clone, Copy, PartialEq, Eq, PartialOrd, Ord, Debug)]
pub struct CommitTime(pub u64);

// The place in the log just behind a record: 512 × sequence plus the offset after it.
#[derive(Clone, Copy, PartialEq, Eq, PartialOrd, Ord, Debug)]
pub struct EndPlace(pub u64);
