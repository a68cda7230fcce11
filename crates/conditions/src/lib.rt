// Reading a medium: the log's records one after the other, the pairs of table and log, and the conditions that log
// blocks, pages, records, table and slots must keep.
#![tactic(auto)]

pub mod blocks;
pub mod cursor;
pub mod log;
pub mod pairs;
pub mod records;
pub mod slots;
pub mod table;
