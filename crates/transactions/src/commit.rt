// Commit.
ghost use Rattle.std.specs.Prelude.{◌≡◌, ◌<◌, ◌-◌, ◌^◌, Ok, Some, None, IfOk, IfErr};
ghost use Rattle.store.specs.Answer.{leaves, ask};
ghost use Rattle.store.specs.Places.{find_active, place_at};
ghost use Rattle.store.specs.Commit.{commit_asks, commit_time, commit_step, commit_of};

use layout::item::Pair;
use layout::{CommitTime, TxNumber};
use store::{Answer, Life, Place, Refusal, State};

// The questions put to a commit: one without versions is asked only the first two.
#[tactic(auto, using(live::proofs::FirstLaws::active_below, tail::proofs::TailLaws::ready))]
fn asks(state: &State, medium: &[u8], cache: &[u8], number: u64) -> Result<usize, Refusal>
    ensures yes { IfOk result (λ place. (ask (commit_asks state.now medium.now cache.now number) ≡ None) × (find_active state.now.places number ≡ Some place)) }
    ensures no { IfErr result (λ why. ask (commit_asks state.now medium.now cache.now number) ≡ Some why) }
{
    questions::fit(state, medium, cache)?;
    let place = questions::active(&state.places, number)?;
    if state.places[place].waiting == 0 {
        return Ok(place);
    }
    if state.last.0 == u64::MAX {
        return Err(Refusal::NoTime);
    }
    if !tail::may_log(state, medium, 19) {
        return Err(Refusal::LogFull);
    }
    Ok(place)
}

// The largest of the two clocks and the last commit time plus 1.
#[tactic(auto, unfolding(store::specs::Commit::commit_time, store::specs::Places::place_at))]
fn time_for(state: &State, place: usize, clock: u64) -> CommitTime
    requires place_bound { place < 64 }
    requires last_bound { state.now.last.0 < 2 ^ 64 - 1 }
    ensures { result ≡ commit_time state.now place clock }
{
    let begun = state.places[place].life.clock();
    CommitTime(begun.max(clock.max(state.last.0 + 1)))
}

// Logs the commit, and notes it in the place of its transaction; its record ends where the tail does.
fn step(
    state: &mut State,
    medium: &mut [u8],
    cache: &[u8],
    place: usize,
    number: TxNumber,
    time: CommitTime,
) -> Answer
    requires passed { ask (commit_asks state.old medium.old cache.now number.0) ≡ None }
    requires place_value { find_active state.old.places number.0 ≡ Some place }
    requires waits { (place_at state.old.places place).waiting ≡ 0 → ⊥ }
    ensures { leaves (Ok result) state.new medium.new cache.now ≡ commit_step state.old medium.old cache.now place number.0 time }
{
    let pair = Pair {
        number: number,
        time: time,
    };
    tail::take_commit(state, medium, pair);
    let end = tail::end_of(&state.tail);
    state.places[place].life = Life::Committed(number, time, end);
    state.last = time;
    Answer::Committed(time)
}

pub fn commit(
    state: &mut State,
    medium: &mut [u8],
    cache: &[u8],
    number: u64,
    clock: u64,
) -> Result<Answer, Refusal>
    ensures { leaves result state.new medium.new cache.now ≡ commit_of state.old medium.old cache.now number clock }
{
    let place = asks(state, medium, cache, number)?;
    if state.places[place].waiting == 0 {
        state.places[place] = Place::free();
        return Ok(Answer::Done);
    }
    let time = time_for(state, place, clock);
    Ok(step(state, medium, cache, place, TxNumber(number), time))
}
