// Do the state and its buffers fit?
ghost use Rattle.std.specs.Prelude.{◌≡◌};
ghost use Rattle.store.specs.State.{in_range, fits};
ghost use Rattle.memory.specs.Tail.{tail_in_range};

use store::State;

// Are L and D in range?
pub fn in_range(blocks: u64, pages: u64) -> bool
    ensures { result ≡ in_range blocks pages }
{
    if blocks < 2 {
        return false;
    }
    if 32 < blocks {
        return false;
    }
    if pages < 1 {
        return false;
    }
    pages <= 64
}

// Are the tail's used bytes and its sequence in range?
fn tail_fits(tail: &[u8; 512]) -> bool
    ensures { result ≡ tail_in_range tail.now }
{
    let used = layout::journal::used(tail);
    if used < 10 {
        return false;
    }
    if 512 < used {
        return false;
    }
    let sequence = layout::journal::sequence(tail);
    if sequence < 1 {
        return false;
    }
    sequence < 1 << 48
}

// Do the state and the buffers fit?
pub fn is_fit(state: &State, medium: usize, cache: usize) -> bool
    ensures { result ≡ fits state.now medium cache }
{
    if !in_range(state.blocks, state.pages) {
        return false;
    }
    if medium != layout::place::medium_length(state.blocks, state.pages) {
        return false;
    }
    if cache != layout::place::cache_length(state.pages) {
        return false;
    }
    if 15 * state.pages < state.slots {
        return false;
    }
    tail_fits(&state.tail)
}
