// Open.
ghost use Rattle.std.specs.Prelude.{◌≡◌};
ghost use Rattle.store.specs.Answer.{leaves};
ghost use Rattle.store.specs.Open.{open_of};

use store::{Answer, Refusal, State};

// A refused opening leaves no state, and of the cache zeros where its length was right.
pub fn open(
    medium: &[u8],
    cache: &mut [u8],
    state: &mut State,
    blocks: u64,
    pages: u64,
) -> Result<Answer, Refusal>
    ensures { leaves result state.new medium.now cache.new ≡ open_of medium.now cache.old blocks pages }
{
    if !crate::format::sizes_fit(medium.len(), blocks, pages) {
        *state = State::none();
        return Err(Refusal::BadSizes);
    }
    if cache.len() != layout::place::cache_length(pages) {
        *state = State::none();
        return Err(Refusal::BadCache);
    }
    match opening::survey::open_state(medium, blocks, pages, cache, state) {
        Some(last) => Ok(Answer::Opened(last)),
        None => {
            *state = State::none();
            cache.fill(0);
            Err(Refusal::Malformed)
        }
    }
}
