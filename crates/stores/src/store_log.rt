// Store log.
ghost use Rattle.std.specs.Prelude.{◌≡◌, length};
ghost use Rattle.fields.specs.Block.{blk, log_block_at};
ghost use Rattle.fields.specs.Equal.{eq_list};
ghost use Rattle.layout.specs.Journal.{sequence_of};
ghost use Rattle.store.specs.Answer.{leaves};
ghost use Rattle.store.specs.StoreLog.{store_log_of};
ghost use Rattle.tail.specs.Taken.{Ready};

use store::{Answer, Refusal, State};

// Does the medium hold the tail?
#[tactic(auto, using(layout::proofs::PlaceLaws::log_in_medium))]
pub(crate) fn is_stored(state: &State, medium: &[u8]) -> bool
    requires { Ready state.now (length medium.now) }
    ensures { result ≡ eq_list (blk medium.now (log_block_at state.now.blocks (sequence_of state.now.tail))) state.now.tail }
{
    let k = layout::place::log_block(state.blocks, layout::journal::sequence(&state.tail));
    fields::block::same_block(medium, k, &state.tail)
}

#[tactic(auto, using(tail::proofs::TailLaws::ready), unfolding(store::specs::StoreLog::store_log_of, store::specs::StoreLog::store_log_if))]
pub fn store_log(state: &mut State, medium: &mut [u8], cache: &[u8]) -> Result<Answer, Refusal>
    ensures { leaves result state.new medium.new cache.now ≡ store_log_of state.old medium.old cache.now }
{
    questions::fit(state, medium, cache)?;
    if is_stored(state, medium) {
        return Err(Refusal::Unchanged);
    }
    tail::store(state, medium);
    tail::all_stored(state);
    Ok(Answer::Done)
}
