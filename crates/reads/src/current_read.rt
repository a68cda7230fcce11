// Current read, and what a version says.
ghost use Rattle.std.specs.Prelude.{◌≡◌, suc, length};
ghost use Rattle.store.specs.Chain.{cell_at};
ghost use Rattle.store.specs.CurrentRead.{reads, current_of};
ghost use Rattle.store.specs.Reading.{answer_in, value_in};
ghost use Rattle.cached.specs.Room.{Room};
ghost use Rattle.reads.specs.Said.{reading_of};

use store::{Reading, Refusal, State};

// What the version in a slot says.
pub(crate) fn read_slot(cache: &[u8], n: u64) -> Reading
    requires { Room (length cache.now) (suc n) }
    ensures { result ≡ reading_of (cell_at cache.now n) }
{
    let a = layout::place::slot_at(n);
    if cache[a + 2] == 1 {
        return Reading::Erased;
    }
    let mut value = [0; 16];
    value.copy_from_slice(&cache[a + 16..a + 32]);
    Reading::Present(value)
}

#[tactic(auto, unfolding(store::specs::CurrentRead::current_of, store::specs::CurrentRead::current_if, store::specs::Chain::held))]
pub fn current_read(
    state: &State,
    medium: &[u8],
    cache: &[u8],
    number: u64,
    key: u16,
) -> Result<Reading, Refusal>
    ensures { reads (answer_in result) (value_in result) state.now medium.now cache.now ≡ current_of state.now medium.now cache.now number key }
{
    questions::fit(state, medium, cache)?;
    questions::record(key)?;
    questions::active(&state.places, number)?;
    let newest = chain::newest::find(cache, key, state.slots);
    if chain::newest::is_held(newest, cache, &state.places, number) {
        return Err(Refusal::Held);
    }
    match chain::visible::find(newest, cache, &state.places, number) {
        Some(n) => Ok(read_slot(cache, n)),
        None => Ok(Reading::Missing),
    }
}
