// The log's records: numbers, times, and no two commits under a number.
ghost use Rattle.std.specs.Prelude.{◌≡◌, true, ◌&&◌, [], ◌+◌, ◌-◌, ◌<◌, ◌≤◌, ◌^◌, length, leb, ltb, is_some, IfSome};
ghost use Rattle.store.specs.OpenLog.{above_all, latest};
ghost use Rattle.store.specs.OpenPairs.{table_find};
ghost use Rattle.store.specs.OpenConditions.{same_time};
ghost use Rattle.conditions.specs.Cursor.{Ready, Valid, rest_of};
ghost use Rattle.conditions.specs.Lookup.{commits_of, commit_among};
ghost use Rattle.conditions.specs.Passes.{log_ok, commit_ok};

use crate::cursor::{Cursor, Step};
use crate::pairs::Pairs;
use layout::item::Pair;
use layout::{EndPlace, TxNumber};

// Of the records of a log: one more than the highest number, and the highest time.
#[derive(Clone, Copy)]
pub struct Tally {
    pub above: u64,
    pub latest: u64,
}

// Is the number in range?
fn number_ok(number: TxNumber) -> bool
    ensures { result ≡ leb 1 number.0 && ltb number.0 (2 ^ 64 - 1) }
{
    1 <= number.0 && number.0 < u64::MAX
}

// Has the table no other time for the number?
fn same_time(pairs: &Pairs, pair: Pair) -> bool
    ensures { result ≡ same_time (table_find pairs.now.medium.now pair.number.0) pairs.now.medium.now pair.time.0 }
{
    match pairs.place(pair.number.0) {
        Some(i) => layout::table::read(pairs.medium, i).time == pair.time,
        None => true,
    }
}

// All records from the cursor on, whose commits the pairs have.
pub fn all_ok(pairs: &Pairs, log: Cursor) -> Option<Tally>
    requires ready { Ready pairs.now.blocks (length pairs.now.medium.now) }
    requires valid { Valid log }
    requires commits_value { pairs.now.commits.now ≡ commits_of (rest_of pairs.now.medium.now pairs.now.blocks log) }
    ensures verdict { is_some result ≡ log_ok pairs.now.medium.now [] (rest_of pairs.now.medium.now pairs.now.blocks log) }
    ensures value { IfSome result (λ tally. (tally.above ≡ above_all (rest_of pairs.now.medium.now pairs.now.blocks log)) × (tally.latest ≡ latest (rest_of pairs.now.medium.now pairs.now.blocks log))) }
{
    let mut above: u64 = 0;
    let mut latest: u64 = 0;
    let mut cursor = log;
    loop {
        match crate::cursor::next(pairs.medium, pairs.blocks, cursor) {
            Step::Done => return Some(Tally { above, latest }),
            Step::Skip(next) => cursor = next,
            Step::Written(head, _, _, next) => {
                if !number_ok(head.number) {
                    return None;
                }
                above = above.max(head.number.0 + 1);
                cursor = next;
            }
            Step::Committed(pair, end, next) => {
                if !commit_ok(pairs, pair, end) {
                    return None;
                }
                above = above.max(pair.number.0 + 1);
                latest = latest.max(pair.time.0);
                cursor = next;
            }
        }
    }
}

// A commit record: its number and time, the only one under its number, and no other time in the table.
fn commit_ok(pairs: &Pairs, pair: Pair, end: EndPlace) -> bool
    ensures { result ≡ commit_ok pairs.now.medium.now (commit_among pairs.now.commits.now pair.number.0) pair end.0 }
{
    number_ok(pair.number)
        && pair.time.0 != 0
        && same_time(pairs, pair)
        && crate::log::end_under(pairs.commits, pair.number.0) == end
}
