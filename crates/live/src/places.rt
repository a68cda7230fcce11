// Which place a number has.
ghost use Rattle.std.specs.Prelude.{◌≡◌};
ghost use Rattle.store.specs.Places.{find_active, find_committed, find_free};

use store::Place;

// The first place that is active under the number.
pub fn find_active(places: &[Place; 64], number: u64) -> Option<usize>
    ensures { result ≡ find_active places.now number }
{
    places
        .iter()
        .position(|place| place.life.is_active_as(number))
}

// The first place that is committed under the number.
pub fn find_committed(places: &[Place; 64], number: u64) -> Option<usize>
    ensures { result ≡ find_committed places.now number }
{
    places
        .iter()
        .position(|place| place.life.is_committed_as(number))
}

// How far behind `ring` the first free place is, round the ring.
pub fn find_free(places: &[Place; 64], ring: u64) -> Option<usize>
    ensures { result ≡ find_free places.now ring }
{
    let from = (ring % 64) as usize;
    (0..64).find(|&k| places[(from + k) % 64].life.is_free())
}
