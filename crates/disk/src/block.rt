// The one block of the medium that a line can change.
ghost use Rattle.std.specs.Prelude.{◌≡◌, not, ◌+◌, ◌≤◌, length, take};
ghost use Rattle.fields.specs.Part.{part};
ghost use Rattle.fields.specs.Equal.{eq_list};
ghost use Rattle.disk.specs.Block.{log_block, page_block, phase_block, block_of, start_of, length_of};

use script::call::Call;
use store::{Phase, State};

// The bytes of a medium that a line can change: where they begin, and how many there are.
#[derive(Clone, Copy)]
pub struct Extent {
    pub at: usize,
    pub len: usize,
}

// The tail's block.
#[tactic(auto, using(store::proofs::FitLaws::range_of), unfolding(crate::specs::Block::log_block))]
fn of_log(state: &State) -> u64
    ensures { result ≡ log_block state.now }
{
    if memory::fit::in_range(state.blocks, state.pages) {
        return layout::place::log_block(
            state.blocks,
            layout::journal::sequence(&state.tail),
        ) as u64;
    }
    0
}

// A page's block.
#[tactic(auto, using(store::proofs::FitLaws::range_of), unfolding(crate::specs::Block::page_block))]
fn of_page(state: &State, page: u64) -> u64
    ensures { result ≡ page_block state.now page }
{
    if memory::fit::in_range(state.blocks, state.pages) && page < state.pages {
        return layout::place::page_block(state.blocks, page) as u64;
    }
    0
}

// The block that the next call of a checkpoint stores.
#[tactic(auto, unfolding(crate::specs::Block::phase_block))]
fn of_phase(phase: Phase) -> u64
    ensures { result ≡ phase_block phase }
{
    match phase {
        Phase::Idle => 1,
        Phase::FirstStored(_, _) => 2,
        Phase::SecondStored(_, _) => 0,
    }
}

// The block that a line can change; 0 for a line that changes none.
#[tactic(auto, unfolding(crate::specs::Block::block_of))]
pub fn of(call: Call, state: &State) -> u64
    ensures { result ≡ block_of state.now call }
{
    match call {
        Call::Write(_, _)
        | Call::Erase(_, _)
        | Call::Commit(_, _)
        | Call::Hand(_, _, _, _, _)
        | Call::StoreLog => of_log(state),
        Call::StorePage(page) => of_page(state, page),
        Call::Checkpoint => of_phase(state.phase),
        Call::Poke(offset, _) => offset / 512,
        _ => 0,
    }
}

// Where a block of a medium of n bytes begins. A block that it does not have is never changed, and block 0 stands for
// it.
fn start(block: u64, n: usize) -> usize
    requires { n ≤ 50688 }
    ensures value { result ≡ start_of block n }
    ensures upper_bound { result ≤ n }
{
    if 98 < block {
        return 0;
    }
    let at = 512 * block as usize;
    if at < n {
        return at;
    }
    0
}

// The bytes of a block in a medium of n bytes; the last block may have fewer than 512.
#[tactic(auto, unfolding(crate::specs::Block::length_of))]
pub fn extent_of(block: u64, n: usize) -> Extent
    requires { n ≤ 50688 }
    ensures at_value { (result.at ≡ start_of block n) × (result.len ≡ length_of (start_of block n) n) }
    ensures len_bound { (result.at + result.len ≤ n) × (result.len ≤ 512) }
{
    let at = start(block, n);
    Extent {
        at: at,
        len: (n - at).min(512),
    }
}

// Copies the bytes as they are.
pub fn keep(e: Extent, medium: &[u8], before: &mut [u8])
    requires { (e.at + e.len ≤ length medium.now) × (e.len ≤ length before.old) }
    ensures { take e.len before.new ≡ part medium.now e.at e.len }
{
    before[..e.len].copy_from_slice(&medium[e.at..e.at + e.len]);
}

// Are the bytes others than those that were kept?
pub fn differ(e: Extent, medium: &[u8], before: &[u8]) -> bool
    requires { (e.at + e.len ≤ length medium.now) × (e.len ≤ length before.now) }
    ensures { result ≡ not (eq_list (take e.len before.now) (part medium.now e.at e.len)) }
{
    !fields::block::same(&before[..e.len], &medium[e.at..e.at + e.len])
}
