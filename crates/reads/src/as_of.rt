// Read as of a time.
ghost use Rattle.std.specs.Prelude.{◌≡◌};
ghost use Rattle.store.specs.CurrentRead.{reads};
ghost use Rattle.store.specs.AsOf.{as_of_of};
ghost use Rattle.store.specs.Reading.{answer_in, value_in};

use crate::current_read::read_slot;
use store::{Reading, Refusal, State};

#[tactic(auto, unfolding(store::specs::AsOf::as_of_of, store::specs::AsOf::as_of_if, store::specs::Chain::held))]
pub fn as_of(
    state: &State,
    medium: &[u8],
    cache: &[u8],
    key: u16,
    time: u64,
) -> Result<Reading, Refusal>
    ensures { reads (answer_in result) (value_in result) state.now medium.now cache.now ≡ as_of_of state.now medium.now cache.now key time }
{
    questions::fit(state, medium, cache)?;
    questions::record(key)?;
    // A cut could take what is not stored, and with it the answer.
    if state.saved.0 < time {
        return Err(Refusal::NotYet);
    }
    let newest = chain::newest::find(cache, key, state.slots);
    match chain::best::find(newest, cache, &state.places, time) {
        Some((n, _)) => Ok(read_slot(cache, n)),
        None => Ok(Reading::Missing),
    }
}
