// The tail of the log: whether it may take a record, taking one, and storing the tail.
#![tactic(auto)]

ghost use Rattle.std.specs.Prelude.{◌≡◌, true, cond, ◌+◌, ◌<◌, ◌≤◌, ◌^◌, length};
ghost use Rattle.layout.specs.Item.{bytes_of};
ghost use Rattle.layout.specs.Journal.{version, commit, sequence_of};
ghost use Rattle.store.specs.StoreLog.{log_stored};
ghost use Rattle.store.specs.Tail.{tail_fits, may_log, tail_end, stored_tail, logged};
ghost use Rattle.tail.specs.Taken.{Ready, taken, begun};

use layout::EndPlace;
use layout::item::{Pair, VersionHead};
use store::State;

// Sequences are below this, so that an end place fits a number of 64 bits.
const SEQUENCES: u64 = 1 << 48;

// Is there room for a record in the tail?
pub fn has_room(tail: &[u8; 512], size: u64) -> bool
    requires { size ≤ 512 }
    ensures { result ≡ tail_fits tail.now size }
{
    layout::journal::used(tail) + size <= 512
}

// May the log take a record?
pub fn may_log(state: &State, medium: &[u8], size: u64) -> bool
    requires size_bound { size ≤ 512 }
    requires ready { Ready state.now (length medium.now) }
    ensures { result ≡ may_log state.now medium.now size }
{
    if has_room(&state.tail, size) {
        return true;
    }
    let next = layout::journal::sequence(&state.tail) + 1;
    next < layout::master::oldest(medium).saturating_add(state.blocks) && next < SEQUENCES
}

// The end place of what stands in the tail.
pub fn end_of(tail: &[u8; 512]) -> EndPlace
    requires { sequence_of tail.now < 2 ^ 48 }
    ensures { result ≡ tail_end tail.now }
{
    layout::place::end_place(layout::journal::sequence(tail), layout::journal::used(tail))
}

// Stores the tail in its block.
pub fn store(state: &State, medium: &mut [u8])
    requires { Ready state.now (length medium.old) }
    ensures { medium.new ≡ stored_tail state.now.blocks medium.old state.now.tail }
{
    let k = layout::place::log_block(state.blocks, layout::journal::sequence(&state.tail));
    fields::block::store(medium, k, &state.tail);
}

// Notes that all of the tail is stored, and with it every commit time given.
pub fn all_stored(state: &mut State)
    requires { sequence_of state.old.tail < 2 ^ 48 }
    ensures { state.new ≡ log_stored state.old }
{
    state.end = end_of(&state.tail);
    state.saved = state.last;
}

// Makes room for a record: a tail that has none is stored, and an empty block begun behind it.
fn make_room(state: &mut State, medium: &mut [u8], size: u64)
    requires ready { Ready state.old (length medium.old) }
    requires size_bound { size ≤ 512 }
    requires log { may_log state.old medium.old size ≡ true }
    ensures made { state.new ≡ cond (tail_fits state.old.tail size) state.old (begun state.old) }
    ensures stored { medium.new ≡ cond (tail_fits state.old.tail size) medium.old (stored_tail state.old.blocks medium.old state.old.tail) }
{
    if !has_room(&state.tail, size) {
        store(state, medium);
        all_stored(state);
        let next = layout::journal::sequence(&state.tail) + 1;
        layout::journal::begin(&mut state.tail, next);
    }
}

// Takes a version record: tail, stored end and stored time follow, and the medium where a block is begun.
pub fn take_version(state: &mut State, medium: &mut [u8], head: VersionHead, value: &[u8; 16])
    requires ready { Ready state.old (length medium.old) }
    requires width_value { may_log state.old medium.old (32 + bytes_of head.width) ≡ true }
    ensures { (state.new ≡ taken state.old (logged state.old medium.old (version head value.now))) × (medium.new ≡ (logged state.old medium.old (version head value.now)).medium) }
{
    make_room(state, medium, 32 + layout::item::bytes(head.width) as u64);
    layout::journal::add_version(&mut state.tail, head, value);
}

// Takes a commit record.
pub fn take_commit(state: &mut State, medium: &mut [u8], pair: Pair)
    requires ready { Ready state.old (length medium.old) }
    requires medium_value { may_log state.old medium.old 19 ≡ true }
    ensures { (state.new ≡ taken state.old (logged state.old medium.old (commit pair))) × (medium.new ≡ (logged state.old medium.old (commit pair)).medium) }
{
    make_room(state, medium, 19);
    layout::journal::add_commit(&mut state.tail, pair);
}
