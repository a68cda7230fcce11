// Erase.
ghost use Rattle.std.specs.Prelude.{◌≡◌};
ghost use Rattle.store.specs.Answer.{leaves};
ghost use Rattle.store.specs.Erase.{erase_of};

use store::{Answer, Refusal, State};

#[tactic(auto, unfolding(store::specs::Erase::erase_of))]
pub fn erase(
    state: &mut State,
    medium: &mut [u8],
    cache: &mut [u8],
    number: u64,
    key: u16,
) -> Result<Answer, Refusal>
    ensures { leaves result state.new medium.new cache.new ≡ erase_of state.old medium.old cache.old number key }
{
    crate::write::add(state, medium, cache, number, key, 1, [0; 16])
}
