// The newest version that a transaction sees: a committed one, or its own.
ghost use Rattle.std.specs.Prelude.{◌≡◌, length};
ghost use Rattle.store.specs.Places.{time_under};
ghost use Rattle.store.specs.Chain.{visible, visible_of};
ghost use Rattle.cached.specs.Room.{Head};

use layout::slot::Slot;
use store::Place;

// Does a transaction see what the slot says? A number with a time is committed.
fn sees(slot: Slot, places: &[Place; 64], number: u64) -> bool
    ensures { result ≡ visible slot (time_under places.now) number }
{
    match slot {
        Slot::Empty => false,
        Slot::Waiting(own) => own.0 == number || live::times::time_under(places, own.0).is_some(),
        Slot::Stamped(_) => true,
    }
}

// The first version that a transaction sees, following earlier slots from the head.
pub fn find(head: Option<u64>, cache: &[u8], places: &[Place; 64], number: u64) -> Option<u64>
    requires { Head head (length cache.now) }
    ensures { result ≡ visible_of head cache.now (time_under places.now) number }
{
    let mut at = head?;
    loop {
        let slot = cached::state_at(cache, at);
        if !cached::is_version(slot) {
            return None;
        }
        if sees(slot, places, number) {
            return Some(at);
        }
        let earlier = cached::earlier_at(cache, at);
        if at <= earlier {
            return None;
        }
        at = earlier;
    }
}
