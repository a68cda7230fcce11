// Begin.
ghost use Rattle.std.specs.Prelude.{◌≡◌};
ghost use Rattle.store.specs.Answer.{leaves};
ghost use Rattle.store.specs.Begin.{begin_of};

use layout::TxNumber;
use store::{Answer, Life, Place, Refusal, State};

#[tactic(auto, using(live::proofs::FirstLaws::free_below), unfolding(store::specs::Begin::begin_of, store::specs::Begin::begin_if, store::specs::Begin::begun, store::specs::Places::ring_place))]
pub fn begin(state: &mut State, medium: &[u8], cache: &[u8], clock: u64) -> Result<Answer, Refusal>
    ensures { leaves result state.new medium.now cache.now ≡ begin_of state.old medium.now cache.now clock }
{
    questions::fit(state, medium, cache)?;
    let number = state.next;
    if number.0 == u64::MAX {
        return Err(Refusal::NoNumber);
    }
    let ahead = live::places::find_free(&state.places, state.ring).ok_or(Refusal::NoPlace)?;
    let place = ((state.ring % 64) as usize + ahead) % 64;
    state.places[place] = Place {
        life: Life::Active(number, clock),
        waiting: 0,
    };
    state.next = TxNumber(number.0 + 1);
    state.ring = (place as u64 + 1) % 64;
    Ok(Answer::Begun(number))
}
