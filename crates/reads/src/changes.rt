// List of changes.
ghost use Rattle.std.specs.Prelude.{◌≡◌};
ghost use Rattle.fields.specs.Block.{zeros};
ghost use Rattle.store.specs.Changes.{changes_of};

use store::{Answer, Refusal, State};

#[tactic(auto, unfolding(store::specs::Changes::changes_of, store::specs::Changes::changes_if, store::specs::Chain::held))]
pub fn changes(
    state: &State,
    medium: &[u8],
    cache: &[u8],
    key: u16,
    t1: u64,
    t2: u64,
    buffer: &mut [u8],
) -> Result<Answer, Refusal>
    ensures { record { answer = result; value = zeros 16; state = state.now; medium = medium.now; cache = cache.now; buffer = buffer.new } ≡ changes_of state.now medium.now cache.now buffer.old key t1 t2 }
{
    questions::fit(state, medium, cache)?;
    questions::record(key)?;
    // A cut could take what is not stored, and with it the answer.
    if state.saved.0 < t2 {
        return Err(Refusal::NotYet);
    }
    let newest = chain::newest::find(cache, key, state.slots);
    match chain::lines::list(newest, cache, &state.places, t1, t2, buffer) {
        Some(count) => Ok(Answer::Listed(count)),
        None => Err(Refusal::ShortBuffer),
    }
}
