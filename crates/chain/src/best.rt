// The version of a record as of a time.
ghost use Rattle.std.specs.Prelude.{◌≡◌, length, None};
ghost use Rattle.store.specs.Places.{time_under};
ghost use Rattle.store.specs.Chain.{version_time, better_of, best_of};
ghost use Rattle.cached.specs.Room.{Head};
ghost use Rattle.chain.specs.Later.{or_later};

use layout::CommitTime;
use layout::slot::Slot;
use store::Place;

// The time of a version: its stamp or its pair's time.
#[tactic(auto, unfolding(store::specs::Chain::version_time))]
pub fn version_time(places: &[Place; 64], slot: Slot) -> Option<CommitTime>
    ensures { result ≡ version_time (time_under places.now) slot }
{
    match slot {
        Slot::Empty => None,
        Slot::Waiting(number) => live::times::time_under(places, number.0),
        Slot::Stamped(time) => Some(time),
    }
}

// The version in slot n, if it has a time that is not above the limit.
fn fitting(time: Option<CommitTime>, n: u64, limit: u64) -> Option<(u64, CommitTime)>
    ensures { result ≡ better_of time n limit None }
{
    match time {
        Some(time) if time.0 <= limit => Some((n, time)),
        _ => None,
    }
}

// The later of two versions, the first among equals. A version that stays is made anew: copied whole, the bytes between its
// tag and its slot would pass through memory at each step of a search.
#[tactic(auto, unfolding(crate::specs::Later::or_later))]
fn later(
    first: Option<(u64, CommitTime)>,
    second: Option<(u64, CommitTime)>,
) -> Option<(u64, CommitTime)>
    ensures { result ≡ or_later first second }
{
    match (first, second) {
        (None, _) => second,
        (Some((_, t)), Some((n, u))) if t.0 < u.0 => Some((n, u)),
        (Some((n, t)), _) => Some((n, t)),
    }
}

// The version with the greatest time not above a time, following earlier slots from the head; among equal times the highest
// slot.
pub fn find(
    head: Option<u64>,
    cache: &[u8],
    places: &[Place; 64],
    time: u64,
) -> Option<(u64, CommitTime)>
    requires { Head head (length cache.now) }
    ensures { result ≡ best_of head cache.now (time_under places.now) time }
{
    let mut best = None;
    let mut at = head?;
    loop {
        let slot = cached::state_at(cache, at);
        if !cached::is_version(slot) {
            return best;
        }
        let next = later(best, fitting(version_time(places, slot), at, time));
        let earlier = cached::earlier_at(cache, at);
        if at <= earlier {
            return next;
        }
        best = next;
        at = earlier;
    }
}
