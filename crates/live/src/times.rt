// The commit times that the places know.
ghost use Rattle.std.specs.Prelude.{◌≡◌};
ghost use Rattle.store.specs.Places.{time_under};

use layout::CommitTime;
use store::{Life, Place};

// The commit time of a number by its place.
#[tactic(auto, using(crate::proofs::FirstLaws::committed_below))]
pub fn time_under(places: &[Place; 64], number: u64) -> Option<CommitTime>
    ensures { result ≡ time_under places.now number }
{
    let i = crate::places::find_committed(places, number)?;
    match places[i].life {
        Life::Committed(_, time, _) => Some(time),
        Life::Free | Life::Active(_, _) => None,
    }
}
