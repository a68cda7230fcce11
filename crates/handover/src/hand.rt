// Handing a flight over: begin, read, check, write, commit, each by the store's public call. Once a number is given, a
// refusal aborts it and is answered.
ghost use Rattle.std.specs.Prelude.{◌≡◌, None, Ok};
ghost use Rattle.store.specs.declared.Answer.TheVariants.{Done, Begun, Present};
ghost use Rattle.store.specs.Answer.{leaves};
ghost use Rattle.handover.specs.Hand.{hand_ends, or_aborted, may_hand, after_begin, hand_of};

use crate::{HandRefusal, Transfer};
use layout::CommitTime;
use store::{Answer, Reading, State};

// The question 17, put to the strip read.
#[tactic(auto, unfolding(crate::specs::Hand::may_hand))]
fn may_hand(strip: [u8; 16], asked: Transfer) -> bool
    ensures { result ≡ may_hand (Ok Present) strip asked }
{
    strip[0] == asked.from && asked.from != 0 && asked.to != 0
}

// The calls under the number that begin gave.
fn carry(
    state: &mut State,
    medium: &mut [u8],
    cache: &mut [u8],
    number: u64,
    asked: Transfer,
) -> Result<CommitTime, HandRefusal>
    ensures { or_aborted result (leaves (Ok Done) state.new medium.new cache.new) number
        ≡ after_begin None (leaves (Ok (Begun (record { 0 = number }))) state.old medium.old cache.old) asked }
{
    let reading = reads::current_read::current_read(state, medium, cache, number, asked.flight)?;
    let Reading::Present(mut strip) = reading else {
        return Err(HandRefusal::NotOwner);
    };
    if !may_hand(strip, asked) {
        return Err(HandRefusal::NotOwner);
    }
    strip[0] = asked.to;
    writes::write::write(state, medium, cache, number, asked.flight, strip)?;
    let committed = transactions::commit::commit(state, medium, cache, number, asked.ended)?;
    let Answer::Committed(time) = committed else {
        unreachable!();
    };
    Ok(time)
}

// Hands a flight over. It answers for every input, and what it leaves is equated with its definition.
pub fn hand(
    state: &mut State,
    medium: &mut [u8],
    cache: &mut [u8],
    asked: Transfer,
) -> Result<CommitTime, HandRefusal>
    ensures { hand_ends result state.new medium.new cache.new ≡ hand_of state.old medium.old cache.old asked }
{
    let begun = transactions::begin::begin(state, medium, cache, asked.began)?;
    let Answer::Begun(number) = begun else {
        unreachable!();
    };
    let handed = carry(state, medium, cache, number.0, asked);
    if handed.is_err() {
        // The number was just given, so that this is not refused.
        let _ = transactions::abort::abort(state, medium, cache, number.0);
    }
    handed
}
