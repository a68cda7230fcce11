// The blocks that are read, and their commit records.
ghost use Rattle.std.specs.Prelude.{◌≡◌, ◌+◌, ◌<◌, ◌≤◌, ◌^◌, length};
ghost use Rattle.store.specs.OpenLog.{matching};
ghost use Rattle.store.specs.OpenPairs.{end_of_commitment};
ghost use Rattle.conditions.specs.Cursor.{Ready, Valid, rest_of};
ghost use Rattle.conditions.specs.Lookup.{match_of, commits_of, commit_among};

use crate::cursor::{Cursor, Step};
use arrayvec::ArrayVec;
use layout::{CommitTime, EndPlace, TxNumber};

// A commit record, with its end place.
#[derive(Clone, Copy)]
pub struct Commit {
    pub number: TxNumber,
    pub time: CommitTime,
    pub end: EndPlace,
}

impl Default for Commit {
    ghost is_default = { λ commit. commit ≡ record { number = record { 0 = 0 }; time = record { 0 = 0 }; end = record { 0 = 0 } } };

    fn default() -> Self {
        Commit {
            number: TxNumber(0),
            time: CommitTime(0),
            end: EndPlace(0),
        }
    }
}

// How many blocks are read: from the oldest on while sequences match.
pub fn read_count(medium: &[u8], blocks: u64, oldest: u64) -> u64
    requires ready { Ready blocks (length medium.now) }
    requires oldest_bound { oldest < 2 ^ 48 }
    ensures { result ≡ matching medium.now blocks oldest blocks }
{
    for k in 0..blocks {
        let start = crate::cursor::block_start(blocks, oldest + k);
        if layout::journal::sequence(&medium[start..start + 512]) != oldest + k {
            return k;
        }
    }
    blocks
}

// Gathers the commit records from the cursor on, in place of what was there, so that each is read from the log once. A
// record takes 19 of a block's 512 bytes, so that a log of 32 blocks has no more than 864.
pub fn gather(medium: &[u8], blocks: u64, from: Cursor, commits: &mut ArrayVec<Commit, 864>)
    requires ready { Ready blocks (length medium.now) }
    requires valid { Valid from }
    ensures { commits.new.items ≡ commits_of (rest_of medium.now blocks from) }
{
    commits.clear();
    let mut cursor = from;
    loop {
        match crate::cursor::next(medium, blocks, cursor) {
            Step::Done => return,
            Step::Skip(next) => cursor = next,
            Step::Written(_, _, _, next) => cursor = next,
            Step::Committed(pair, end, next) => {
                commits.push(Commit {
                    number: pair.number,
                    time: pair.time,
                    end,
                });
                cursor = next;
            }
        }
    }
}

// The first of the commits under a number: its time and end place.
pub fn commit_under(commits: &[Commit], number: u64) -> Option<(CommitTime, EndPlace)>
    ensures { result ≡ match_of (commit_among commits.now number) }
{
    commits
        .iter()
        .find(|commit| commit.number.0 == number)
        .map(|commit| (commit.time, commit.end))
}

// The end place of a number's commit record; 0 where the log has none.
pub fn end_under(commits: &[Commit], number: u64) -> EndPlace
    ensures { result ≡ record { 0 = end_of_commitment (commit_among commits.now number) } }
{
    commit_under(commits, number).map_or(EndPlace(0), |(_, end)| end)
}
