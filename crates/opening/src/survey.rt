// Opening as a whole: is the medium well formed, and the state that it gives.
ghost use Rattle.std.specs.Prelude.{◌≡◌, List, ℕ, ◌+◌, ◌*◌, ◌<◌, ◌≤◌, ◌^◌, length, is_some, IfSome, IfNone};
ghost use Rattle.fields.specs.Block.{medium_length};
ghost use Rattle.layout.specs.Master.{oldest_on};
ghost use Rattle.store.specs.OpenLog.{read_count, log_end, read_tail, next_number, last_time};
ghost use Rattle.store.specs.OpenRedo.{pages_on, used_in};
ghost use Rattle.store.specs.OpenConditions.{well_formed, redone};
ghost use Rattle.store.specs.Open.{opened_state};
ghost use Rattle.conditions.specs.Cursor.{Ready, Valid};
ghost use Rattle.conditions.specs.Lookup.{KeysBelow};
ghost use Rattle.conditions.specs.Passes.{master_ok, table_and_slots};
ghost use Rattle.opening.specs.Surveyed.{ReadAs, Applied};

use arrayvec::ArrayVec;
use conditions::cursor::Cursor;
use conditions::pairs::Pairs;
use layout::{CommitTime, EndPlace, TxNumber};
use store::{Phase, State};

// Are the master's fields in form, the sizes those given, and its numbers in range?
fn master_ok(medium: &[u8], blocks: u64, pages: u64) -> bool
    requires { 1536 ≤ length medium.now }
    ensures { result ≡ master_ok medium.now blocks pages }
{
    let Some(fields) = layout::master::read(&medium[..512]) else {
        return false;
    };
    fields.blocks == blocks
        && fields.pages == pages
        && (1..1 << 48).contains(&fields.oldest)
        && fields.next.0 != 0
}

// The end of the log: behind the last block read, or of an empty one under the oldest sequence.
fn log_end(medium: &[u8], blocks: u64, oldest: u64, count: u64) -> u64
    requires ready { Ready blocks (length medium.now) }
    requires oldest_value { (oldest ≡ oldest_on medium.now) × (count ≡ read_count medium.now blocks) }
    requires oldest_bound { (oldest < 2 ^ 48) × (oldest + count ≤ 2 ^ 48) }
    ensures { result ≡ log_end medium.now blocks }
{
    if count == 0 {
        return 512 * oldest + 10;
    }
    let last = oldest + count - 1;
    let start = conditions::cursor::block_start(blocks, last);
    512 * last + layout::journal::used(&medium[start..start + 512])
}

// Where the log's records begin, and the log's end, if the master, the log blocks and the pages are in form as they lie
// on the medium.
fn read_log(medium: &[u8], blocks: u64, pages: u64) -> Option<(Cursor, u64)>
    requires ready { Ready blocks (length medium.now) }
    requires pages_bound { (pages ≤ 64) × (length medium.now ≡ medium_length blocks pages) }
    ensures { ReadAs medium.now blocks pages result }
{
    if !master_ok(medium, blocks, pages) {
        return None;
    }
    let oldest = layout::master::oldest(medium);
    let count = conditions::log::read_count(medium, blocks, oldest);
    if !conditions::blocks::blocks_ok(medium, blocks, pages, oldest, count) {
        return None;
    }
    let end = log_end(medium, blocks, oldest, count);
    if !conditions::blocks::pages_ok(medium, blocks, pages, end) {
        return None;
    }
    let start = Cursor {
        sequence: oldest,
        at: 10,
        left: count,
    };
    Some((start, end))
}

// Copies the pages into the cache.
fn copy_pages(medium: &[u8], blocks: u64, pages: u64, cache: &mut [u8])
    requires blocks_bound { (blocks ≤ 32) × (pages ≤ 64) }
    requires medium_len { length medium.now ≡ medium_length blocks pages }
    requires cache_len { length cache.old ≡ 512 * pages }
    ensures { cache.new ≡ pages_on medium.now blocks pages }
{
    let start = (512 * (3 + blocks)) as usize;
    let length = (512 * pages) as usize;
    cache.copy_from_slice(&medium[start..start + length]);
}

// The table and the slots of the cache.
fn cache_ok(pairs: &Pairs, pages: u64, cache: &[u8], next: u64, last: u64) -> bool
    requires pages_bound { (pages ≤ 64) × (length cache.now ≡ 512 * pages) }
    requires keys_below { KeysBelow cache.now pages }
    requires next_value { (next ≡ next_number pairs.now.medium.now pairs.now.blocks) × (last ≡ last_time pairs.now.medium.now pairs.now.blocks) }
    ensures { result ≡ table_and_slots pairs.now.medium.now pairs.now.blocks pages cache.now }
{
    conditions::table::all_ok(pairs.medium, next, last)
        && conditions::slots::pages_full(cache, pages)
        && conditions::slots::all_ok(pairs, pages, cache, next, last)
}

// How many slots are used.
fn used_slots(cache: &[u8], pages: u64) -> u64
    requires { (pages ≤ 64) × (length cache.now ≡ 512 * pages) }
    ensures { result ≡ used_in cache.now pages }
{
    let mut used = 0;
    for page in 0..pages {
        let start = (512 * page) as usize;
        used += u64::from(layout::page::used(&cache[start..start + 512]));
    }
    used
}

// Lays the tail: the last block read, or an empty one under the oldest sequence.
fn lay_tail(medium: &[u8], blocks: u64, log: Cursor, tail: &mut [u8; 512])
    requires ready { Ready blocks (length medium.now) }
    requires valid { Valid log }
    requires log_value { (log.sequence ≡ oldest_on medium.now) × (log.left ≡ read_count medium.now blocks) }
    ensures { tail.new ≡ read_tail medium.now blocks }
{
    if log.left == 0 {
        layout::journal::begin(tail, log.sequence);
    } else {
        let start = conditions::cursor::block_start(blocks, log.sequence + log.left - 1);
        tail.copy_from_slice(&medium[start..start + 512]);
    }
}

// Judges log, table and slots once redo is done, and makes the state in place, if they are in order. It answers the last
// time.
fn judge(
    medium: &[u8],
    blocks: u64,
    pages: u64,
    log: Cursor,
    end: u64,
    cache: &[u8],
    first: &[u64; 64],
    state: &mut State,
) -> Option<CommitTime>
    requires ready { Ready blocks (length medium.now) }
    requires pages_bound { (pages ≤ 64) × (length cache.now ≡ 512 * pages) }
    requires applied { Applied medium.now blocks pages log end cache.now first.now }
    requires medium_len { length medium.now ≡ medium_length blocks pages }
    ensures verdict { is_some result ≡ well_formed medium.now blocks pages }
    ensures value { IfSome result (λ time. (state.new ≡ opened_state medium.now blocks pages) × (time.0 ≡ last_time medium.now blocks)) }
    ensures refused { IfNone result (state.new ≡ state.old) }
{
    let mut commits = ArrayVec::new();
    conditions::log::gather(medium, blocks, log, &mut commits);
    let pairs = Pairs {
        medium,
        blocks,
        used: conditions::table::extent(medium),
        commits: &commits,
    };
    let tally = conditions::records::all_ok(&pairs, log)?;
    let given = fields::field::get8(medium, 24);
    let stored = fields::field::get8(medium, 35);
    let next = given.max(tally.above);
    let last = stored.max(tally.latest);
    if !cache_ok(&pairs, pages, cache, next, last) {
        return None;
    }
    crate::places::lay(&pairs, pages, cache, &mut state.places)?;
    lay_tail(medium, blocks, log, &mut state.tail);
    state.blocks = blocks;
    state.pages = pages;
    state.slots = used_slots(cache, pages);
    state.next = TxNumber(next);
    state.last = CommitTime(last);
    state.saved = CommitTime(last);
    state.end = EndPlace(end);
    state.ring = 0;
    state.first = *first;
    state.phase = Phase::Idle;
    Some(state.last)
}

// Opens a medium, if it is well formed: the cache then holds the pages as redo leaves them, the state what the medium
// gives, and the answer is the last time. Else the state is left as it was.
pub fn open_state(
    medium: &[u8],
    blocks: u64,
    pages: u64,
    cache: &mut [u8],
    state: &mut State,
) -> Option<CommitTime>
    requires ready { Ready blocks (length medium.now) }
    requires pages_bound { (pages ≤ 64) × (length medium.now ≡ medium_length blocks pages) }
    requires cache_len { length cache.old ≡ 512 * pages }
    ensures found { is_some result ≡ well_formed medium.now blocks pages }
    ensures opened { IfSome result (λ time. (cache.new ≡ (redone medium.now blocks pages).cache) × (state.new ≡ opened_state medium.now blocks pages) × (time.0 ≡ last_time medium.now blocks)) }
    ensures refused { IfNone result (state.new ≡ state.old) }
{
    let (log, end) = read_log(medium, blocks, pages)?;
    copy_pages(medium, blocks, pages, cache);
    let mut first = [0; 64];
    if !crate::redo::run(medium, blocks, pages, log, cache, &mut first) {
        return None;
    }
    judge(medium, blocks, pages, log, end, cache, &first, state)
}
