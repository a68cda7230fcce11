// The questions that several calls share, each with its refusal.
#![tactic(auto)]

ghost use Rattle.std.specs.Prelude.{◌≡◌, true, false, Some, None, IfOk, IfErr, OnOk, length};
ghost use Rattle.layout.specs.Slot.{key_form};
ghost use Rattle.store.specs.declared.Refusal.TheVariants.{Unfit, NoRecord, NotActive};
ghost use Rattle.store.specs.Places.{find_active};
ghost use Rattle.store.specs.State.{fits};

use store::{Place, RECORDS, Refusal, State};

// Do the state and its buffers fit?
pub fn fit(state: &State, medium: &[u8], cache: &[u8]) -> Result<(), Refusal>
    ensures yes { OnOk result (fits state.now (length medium.now) (length cache.now) ≡ true) }
    ensures no { IfErr result (λ why. (why ≡ Unfit) × (fits state.now (length medium.now) (length cache.now) ≡ false)) }
{
    if memory::fit::is_fit(state, medium.len(), cache.len()) {
        Ok(())
    } else {
        Err(Refusal::Unfit)
    }
}

// Is it the number of a record?
#[tactic(auto, unfolding(layout::specs::Slot::key_form))]
pub fn record(key: u16) -> Result<(), Refusal>
    ensures yes { OnOk result (key_form key ≡ true) }
    ensures no { IfErr result (λ why. (why ≡ NoRecord) × (key_form key ≡ false)) }
{
    if key < RECORDS {
        Ok(())
    } else {
        Err(Refusal::NoRecord)
    }
}

// Is the transaction active? Then in this place.
pub fn active(places: &[Place; 64], number: u64) -> Result<usize, Refusal>
    ensures yes { IfOk result (λ place. find_active places.now number ≡ Some place) }
    ensures no { IfErr result (λ why. (why ≡ NotActive) × (find_active places.now number ≡ None)) }
{
    live::places::find_active(places, number).ok_or(Refusal::NotActive)
}
