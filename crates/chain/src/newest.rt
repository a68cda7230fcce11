// The newest version of a record, and whether it holds the record.
ghost use Rattle.std.specs.Prelude.{◌≡◌, suc, length};
ghost use Rattle.store.specs.Chain.{version_of, newest, held_as, held_at};
ghost use Rattle.cached.specs.Room.{Room, Head};

use layout::slot::Slot;
use store::Place;

// Does a slot hold a version of the record? The low byte alone tells most other records apart.
#[tactic(auto, unfolding(store::specs::Chain::version_of))]
pub fn holds(cache: &[u8], key: u16, n: u64) -> bool
    requires { Room (length cache.now) (suc n) }
    ensures { result ≡ version_of cache.now key n }
{
    cached::low_at(cache, n) == (key % 256) as u8
        && cached::key_at(cache, n) == key
        && cached::is_version(cached::state_at(cache, n))
}

// The highest slot below n that holds a version of the record.
pub fn find(cache: &[u8], key: u16, n: u64) -> Option<u64>
    requires { Room (length cache.now) n }
    ensures { result ≡ newest cache.now key n }
{
    for i in (0..n).rev() {
        if holds(cache, key, i) {
            return Some(i);
        }
    }
    None
}

// Does a slot wait under another active number?
fn holds_against(slot: Slot, places: &[Place; 64], number: u64) -> bool
    ensures { result ≡ held_as slot places.now number }
{
    match slot {
        Slot::Waiting(own) => own.0 != number && live::places::find_active(places, own.0).is_some(),
        Slot::Empty | Slot::Stamped(_) => false,
    }
}

// Does a record's newest version hold it against a transaction?
pub fn is_held(newest: Option<u64>, cache: &[u8], places: &[Place; 64], number: u64) -> bool
    requires { Head newest (length cache.now) }
    ensures { result ≡ held_at newest cache.now places.now number }
{
    match newest {
        Some(n) => holds_against(cached::state_at(cache, n), places, number),
        None => false,
    }
}
