// Abort.
ghost use Rattle.std.specs.Prelude.{◌≡◌};
ghost use Rattle.store.specs.Answer.{leaves};
ghost use Rattle.store.specs.Abort.{abort_of};

use store::{Answer, Place, Refusal, State};

#[tactic(auto, using(live::proofs::FirstLaws::active_below), unfolding(store::specs::Abort::abort_of, store::specs::Abort::abort_if, store::specs::State::with_place))]
pub fn abort(state: &mut State, medium: &[u8], cache: &[u8], number: u64) -> Result<Answer, Refusal>
    ensures { leaves result state.new medium.now cache.now ≡ abort_of state.old medium.now cache.now number }
{
    questions::fit(state, medium, cache)?;
    let place = questions::active(&state.places, number)?;
    state.places[place] = Place::free();
    Ok(Answer::Done)
}
