// The log blocks, and the pages as they lie on the medium.
ghost use Rattle.std.specs.Prelude.{◌≡◌, true, ◌&&◌, ◌+◌, ◌*◌, ◌<◌, ◌≤◌, ◌^◌, length, ltb, leb};
ghost use Rattle.layout.specs.Slot.{key_form, kind_form};
ghost use Rattle.layout.specs.Journal.{parsed};
ghost use Rattle.store.specs.OpenLog.{log_end};
ghost use Rattle.store.specs.OpenConditions.{low_after_all};
ghost use Rattle.conditions.specs.Cursor.{Ready};
ghost use Rattle.conditions.specs.Lookup.{low_of};
ghost use Rattle.conditions.specs.Passes.{all_of, records_ok, blocks_ok, page_ok};

use layout::CommitTime;
use layout::item::{Item, VersionHead};

// Has a version record a key, a kind and a value in form, and a slot in range?
fn version_ok(head: VersionHead, value: &[u8], pages: u64) -> bool
    requires { pages ≤ 64 }
    ensures { result ≡ (key_form head.key && kind_form head.kind value.now) && ltb head.slot (15 * pages) }
{
    head.key < store::RECORDS
        && layout::slot::kind_in_form(head.kind, value)
        && head.slot < 15 * pages
}

// Is a time above the last one, if there is one?
fn rises(last: Option<CommitTime>, time: CommitTime) -> bool
    ensures { result ≡ leb (low_of last) time.0 }
{
    last.is_none_or(|last| last.0 < time.0)
}

// Do the records of a block, one after the other, keep what is asked of them? `last` becomes the last commit time up to
// them.
pub fn records_ok(block: &[u8], pages: u64, last: &mut Option<CommitTime>) -> bool
    requires block_len { length block.now ≡ 512 }
    requires pages_bound { pages ≤ 64 }
    ensures { (result ≡ records_ok pages (low_of last.old) (parsed block.now).records && (parsed block.now).whole) × (result ≡ true → low_of last.new ≡ low_after_all (low_of last.old) (parsed block.now).records) }
{
    let mut at = 10;
    loop {
        match crate::cursor::item_at(block, at) {
            Item::End => return true,
            Item::Version(head) => {
                let end = at + 32 + layout::item::bytes(head.width);
                if !version_ok(head, &block[end - 16..end], pages) {
                    return false;
                }
                at = end;
            }
            Item::Commit(pair) => {
                if !rises(*last, pair.time) {
                    return false;
                }
                *last = Some(pair.time);
                at += 19;
            }
            Item::Number(_, _) | Item::Damaged => return false,
        }
    }
}

// All blocks that are read: sequence, form, records.
pub fn blocks_ok(medium: &[u8], blocks: u64, pages: u64, oldest: u64, count: u64) -> bool
    requires ready { Ready blocks (length medium.now) }
    requires pages_bound { pages ≤ 64 }
    requires oldest_bound { (oldest < 2 ^ 48) × (count ≤ 32) }
    ensures { result ≡ blocks_ok medium.now blocks pages 0 oldest count }
{
    let mut last = None;
    for k in 0..count {
        let sequence = oldest + k;
        if sequence >= 1 << 48 {
            return false;
        }
        let start = crate::cursor::block_start(blocks, sequence);
        let block = &medium[start..start + 512];
        if !layout::journal::in_form(block) {
            return false;
        }
        if !records_ok(block, pages, &mut last) {
            return false;
        }
    }
    true
}

// A page as it lies on the medium: its form, and an end place that is not above the log's end.
fn page_ok(medium: &[u8], blocks: u64, end: u64, page: u64) -> bool
    requires bounds { (blocks ≤ 32) × (page < 64) }
    requires in_bounds { 512 * (3 + blocks + page) + 512 ≤ length medium.now }
    requires end_value { end ≡ log_end medium.now blocks }
    ensures { result ≡ page_ok medium.now blocks 0 page }
{
    let start = 512 * layout::place::page_block(blocks, page);
    let bytes = &medium[start..start + 512];
    layout::page::in_form(bytes) && layout::page::end(bytes).0 <= end
}

// All pages as they lie on the medium.
pub fn pages_ok(medium: &[u8], blocks: u64, pages: u64, end: u64) -> bool
    requires ready { Ready blocks (length medium.now) }
    requires pages_in_bounds { 512 * (3 + blocks + pages) ≤ length medium.now }
    requires pages_bound { pages ≤ 64 }
    requires end_value { end ≡ log_end medium.now blocks }
    ensures { result ≡ all_of (page_ok medium.now blocks pages) 0 pages }
{
    (0..pages).all(|page| page_ok(medium, blocks, end, page))
}
