// The slots of the cache once redo is done: pages full, earlier slots, times and bounds.
ghost use Rattle.std.specs.Prelude.{◌≡◌, true, ◌&&◌, [], suc, ◌+◌, ◌*◌, ◌<◌, ◌≤◌, length};
ghost use Rattle.store.specs.Chain.{cell_at, version_time};
ghost use Rattle.store.specs.OpenLog.{read_log, next_number, last_time};
ghost use Rattle.store.specs.OpenPairs.{pair_time};
ghost use Rattle.store.specs.OpenConditions.{slot_in_bounds, slot_at_least_one, full_before};
ghost use Rattle.cached.specs.Room.{Room};
ghost use Rattle.conditions.specs.Lookup.{KeysBelow, Tracks, time_fits, times_after};
ghost use Rattle.conditions.specs.Passes.{all_of, slot_ok};

use crate::pairs::Pairs;
use layout::CommitTime;
use layout::slot::Slot;

// Of the slots seen, each record's newest version and the newest time of its versions, by the record's number.
#[derive(Clone, Copy)]
struct Newest {
    // 65535: none.
    slots: [u16; 1024],
    // 0: none.
    times: [u64; 1024],
}

// Is the page full, the last one, or the one behind it unused?
fn page_full(cache: &[u8], pages: u64, page: u64) -> bool
    requires page_lt_pages { (page < pages) × (pages ≤ 64) }
    requires cache_len { length cache.now ≡ 512 * pages }
    ensures { result ≡ full_before [] 0 pages cache.now page }
{
    let start = (512 * page) as usize;
    if layout::page::used(&cache[start..start + 512]) == 15 {
        return true;
    }
    if page + 1 == pages {
        return true;
    }
    let behind = start + 512;
    layout::page::used(&cache[behind..behind + 512]) == 0
}

// Are the pages full before the last used one?
pub fn pages_full(cache: &[u8], pages: u64) -> bool
    requires pages_bound { pages ≤ 64 }
    requires cache_len { length cache.now ≡ 512 * pages }
    ensures { result ≡ all_of (full_before [] 0 pages cache.now) 0 pages }
{
    (0..pages).all(|page| page_full(cache, pages, page))
}

// Are a slot's number or time at least 1 and in bounds?
fn in_bounds(slot: Slot, next: u64, last: u64) -> bool
    ensures { result ≡ slot_in_bounds slot next last && slot_at_least_one slot }
{
    match slot {
        Slot::Empty => true,
        Slot::Waiting(number) => number.0 < next && 1 <= number.0,
        Slot::Stamped(time) => time.0 <= last && 1 <= time.0,
    }
}

// The time of a version: its stamp, or its pair's in table or log.
fn time_of(pairs: &Pairs, slot: Slot) -> Option<CommitTime>
    ensures { result ≡ version_time (pair_time pairs.now.medium.now (read_log pairs.now.medium.now pairs.now.blocks)) slot }
{
    match slot {
        Slot::Empty => None,
        Slot::Waiting(number) => pairs.time(number.0),
        Slot::Stamped(time) => Some(time),
    }
}

// Is the time not below the record's newest one before it? It is then the newest.
fn follows(times: &mut [u64; 1024], key: u16, time: Option<CommitTime>) -> bool
    requires { key < 1024 }
    ensures { (result ≡ time_fits times.old key time) × (times.new ≡ times_after times.old key time) }
{
    let Some(time) = time else {
        return true;
    };
    let k = key as usize;
    let follows = times[k] <= time.0;
    times[k] = time.0;
    follows
}

// A slot: its earlier slot and its time against those of its record before it, and its bounds.
fn slot_ok(pairs: &Pairs, cache: &[u8], n: u64, next: u64, last: u64, newest: &mut Newest) -> bool
    requires room { Room (length cache.now) (suc n) }
    requires n_bound { (cell_at cache.now n).key < 1024 }
    requires next_value { (next ≡ next_number pairs.now.medium.now pairs.now.blocks) × (last ≡ last_time pairs.now.medium.now pairs.now.blocks) }
    requires tracks { Tracks pairs.now.medium.now pairs.now.blocks cache.now n newest.old }
    ensures value { result ≡ slot_ok pairs.now.medium.now pairs.now.blocks 0 cache.now n }
    ensures tracks { result ≡ true → Tracks pairs.now.medium.now pairs.now.blocks cache.now (suc n) newest.new }
{
    let slot = cached::state_at(cache, n);
    if !cached::is_version(slot) {
        return true;
    }
    let key = cached::key_at(cache, n);
    let k = key as usize;
    if u64::from(newest.slots[k]) != cached::earlier_at(cache, n) {
        return false;
    }
    newest.slots[k] = n as u16;
    let time = time_of(pairs, slot);
    follows(&mut newest.times, key, time) && in_bounds(slot, next, last)
}

// All slots of the cache.
pub fn all_ok(pairs: &Pairs, pages: u64, cache: &[u8], next: u64, last: u64) -> bool
    requires pages_bound { (pages ≤ 64) × (length cache.now ≡ 512 * pages) }
    requires keys_below { KeysBelow cache.now pages }
    requires next_value { (next ≡ next_number pairs.now.medium.now pairs.now.blocks) × (last ≡ last_time pairs.now.medium.now pairs.now.blocks) }
    ensures { result ≡ all_of (slot_ok pairs.now.medium.now pairs.now.blocks pages cache.now) 0 (15 * pages) }
{
    let mut newest = Newest {
        slots: [65535; 1024],
        times: [0; 1024],
    };
    for n in 0..15 * pages {
        if !slot_ok(pairs, cache, n, next, last, &mut newest) {
            return false;
        }
    }
    true
}
