// The pairs of a medium: those of its table, and those of its log's commits.
ghost use Rattle.std.specs.Prelude.{◌≡◌, ◌≤◌, length};
ghost use Rattle.store.specs.OpenLog.{read_log};
ghost use Rattle.store.specs.OpenPairs.{table_find, pair_time};
ghost use Rattle.conditions.specs.Lookup.{Known};

use crate::log::Commit;
use layout::CommitTime;

// A medium that was gone through once: how many places of its table there are up to the last one in use, and the
// commits of its log.
#[derive(Clone, Copy)]
pub struct Pairs<'a> {
    pub medium: &'a [u8],
    pub blocks: u64,
    pub used: usize,
    pub commits: &'a [Commit],
    ghost table: { 1536 ≤ length medium.now },
    ghost known: { Known medium.now blocks used commits.now },
}

impl Pairs<'_> {
    // The table place of a number.
    pub fn place(&self, number: u64) -> Option<usize>
        ensures { result ≡ table_find self.now.medium.now number }
    {
        crate::table::find(self.medium, self.used, number)
    }

    // The commit time of a number: the table's, else the log's.
    pub fn time(&self, number: u64) -> Option<CommitTime>
        ensures { result ≡ pair_time self.now.medium.now (read_log self.now.medium.now self.now.blocks) number }
    {
        match self.place(number) {
            Some(i) => Some(layout::table::read(self.medium, i).time),
            None => crate::log::commit_under(self.commits, number).map(|(time, _)| time),
        }
    }
}
