// Storing a page: stamping its waiting versions, and counting their transactions down.
#![tactic(auto)]

ghost use Rattle.std.specs.Prelude.{◌≡◌, cond, not, List, ℕ, ◌<◌, length, fold, get_or, None, Some};
ghost use Rattle.fields.specs.Equal.{eq_list};
ghost use Rattle.layout.specs.Slot.{slot_state};
ghost use Rattle.layout.specs.Page.{page_slot};
ghost use Rattle.store.specs.Places.{time_up_to};
ghost use Rattle.store.specs.StorePage.{lower_at};
ghost use Rattle.pages.specs.Stamped.{stamp_for, stamped_under, settled_under, place_for, AmongPlaces};

use layout::slot::Slot;
use layout::{CommitTime, EndPlace};
use store::{Life, Place, State};

// The commit time, if its commit record is stored.
fn stored_time(life: Life, end: EndPlace) -> Option<CommitTime>
    ensures { result ≡ time_up_to life end.0 }
{
    match life {
        Life::Committed(_, time, record_end) if record_end <= end => Some(time),
        _ => None,
    }
}

// The place of a waiting version's transaction, and the time with which it is stamped, if its commit record is stored.
fn stamp_for(places: &[Place; 64], end: EndPlace, slot: Slot) -> Option<(usize, CommitTime)>
    ensures { result ≡ stamp_for places.now end.0 slot }
{
    let Slot::Waiting(number) = slot else {
        return None;
    };
    let place = live::places::find_committed(places, number.0)?;
    let time = stored_time(places[place].life, end)?;
    Some((place, time))
}

// What slot i of the page says.
fn slot(page: &[u8; 512], i: usize) -> Slot
    requires { i < 15 }
    ensures { result ≡ slot_state (page_slot page.now i) }
{
    let at = 32 + 32 * i;
    layout::slot::read(&page[at..at + 32])
}

// Stamps the page's waiting versions, and names the places of their transactions.
fn stamp(places: &[Place; 64], end: EndPlace, page: &mut [u8; 512]) -> [Option<usize>; 15]
    ensures page_after { page.new ≡ stamped_under places.now end.0 page.old }
    ensures found { (i : ℕ) → i < 15 → get_or result i None ≡ place_for places.now end.0 (slot_state (page_slot page.old i)) }
{
    let mut found = [None; 15];
    for i in 0..15 {
        if let Some((place, time)) = stamp_for(places, end, slot(page, i)) {
            layout::page::stamp(page, i, time);
            found[i] = Some(place);
        }
    }
    found
}

// Counts down the places of the versions that are stamped.
fn settle(places: &mut [Place; 64], found: &[Option<usize>; 15])
    requires { AmongPlaces found.now }
    ensures { places.new ≡ fold (λ ps p. lower_at p ps) places.old found.now }
{
    for &place in found {
        if let Some(place) = place {
            places[place].lower();
        }
    }
}

// Does the block hold the page, as it is once stamped? Nothing is changed.
pub fn holds(state: &State, page: &[u8], block: &[u8]) -> bool
    requires { (length page.now ≡ 512) × (length block.now ≡ 512) }
    ensures { result ≡ eq_list block.now (stamped_under state.now.places state.now.end.0 page.now) }
{
    let mut stamped = [0; 512];
    stamped.copy_from_slice(page);
    stamp(&state.places, state.end, &mut stamped);
    fields::block::same(block, &stamped)
}

// Stamps the cached page, copies it to its block and counts its transactions down, unless the block holds it already.
pub fn store(places: &mut [Place; 64], end: EndPlace, page: &mut [u8], block: &mut [u8]) -> bool
    requires { (length page.old ≡ 512) × (length block.old ≡ 512) }
    ensures value { result ≡ not (eq_list block.old (stamped_under places.old end.0 page.old)) }
    ensures page_after { page.new ≡ cond result (stamped_under places.old end.0 page.old) page.old }
    ensures block_after { block.new ≡ cond result (stamped_under places.old end.0 page.old) block.old }
    ensures places_after { places.new ≡ cond result (settled_under places.old end.0 page.old) places.old }
{
    let mut stamped = [0; 512];
    stamped.copy_from_slice(page);
    let found = stamp(places, end, &mut stamped);
    if fields::block::same(block, &stamped) {
        return false;
    }
    page.copy_from_slice(&stamped);
    block.copy_from_slice(page);
    settle(places, &found);
    true
}
