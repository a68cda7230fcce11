// Checkpoint: one entry, called three times.
ghost use Rattle.std.specs.Prelude.{◌≡◌};
ghost use Rattle.store.specs.Answer.{leaves};
ghost use Rattle.store.specs.Checkpoint.{checkpoint_of};

use store::{Answer, Refusal, State};

#[tactic(auto, using(crate::proofs::StoreLaws::sized), unfolding(store::specs::Checkpoint::checkpoint_of, store::specs::Checkpoint::checkpoint_if))]
pub fn checkpoint(state: &mut State, medium: &mut [u8], cache: &[u8]) -> Result<Answer, Refusal>
    ensures { leaves result state.new medium.new cache.now ≡ checkpoint_of state.old medium.old cache.now }
{
    questions::fit(state, medium, cache)?;
    checkpoints::step(state, medium);
    Ok(Answer::Done)
}
