// The places of live transactions that table and log give.
ghost use Rattle.std.specs.Prelude.{◌≡◌, ◌*◌, ◌<◌, ◌≤◌, length, leb, is_some, IfSome, IfNone};
ghost use Rattle.store.specs.OpenLog.{read_log};
ghost use Rattle.store.specs.OpenPairs.{is_paired, waiting_numbers, open_places};
ghost use Rattle.opening.specs.Waits.{waiting_under};
ghost use Rattle.opening.specs.Placing.{table_place, take_one};

use crate::waiting::Waiting;
use conditions::pairs::Pairs;
use layout::{CommitTime, EndPlace, TxNumber};
use std::array;
use store::{Life, Place};

// The place of a table place's transaction: live if versions wait under its number.
fn table_place(pairs: &Pairs, list: &[Waiting], i: usize) -> Place
    requires { i < 64 }
    ensures { result ≡ table_place pairs.now.medium.now (read_log pairs.now.medium.now pairs.now.blocks) (waiting_under list.now) i }
{
    if pairs.used <= i {
        return Place::free();
    }
    let pair = layout::table::read(pairs.medium, i);
    if pair.number.0 == 0 {
        return Place::free();
    }
    let waiting = crate::waiting::waiting_under(list, pair.number.0);
    if waiting == 0 {
        return Place::free();
    }
    let end = conditions::log::end_under(pairs.commits, pair.number.0);
    Place {
        life: Life::Committed(pair.number, pair.time, end),
        waiting,
    }
}

// Puts a live pair of the log into the first free place, if the table has none for it.
fn take_log(pairs: &Pairs, waiting: Waiting, places: &mut [Place; 64])
    ensures { places.new ≡ take_one pairs.now.medium.now (read_log pairs.now.medium.now pairs.now.blocks) places.old waiting }
{
    if pairs.place(waiting.number).is_some() {
        return;
    }
    let Some(i) = live::places::find_free(places, 0) else {
        return;
    };
    let (time, end) = conditions::log::commit_under(pairs.commits, waiting.number).unwrap_or((
        CommitTime(0),
        EndPlace(0),
    ));
    places[i] = Place {
        life: Life::Committed(TxNumber(waiting.number), time, end),
        waiting: waiting.count,
    };
}

// Lays the places of all live transactions, if they are at most 64; else the places stay.
pub fn lay(pairs: &Pairs, pages: u64, cache: &[u8], places: &mut [Place; 64]) -> Option<()>
    requires { (pages ≤ 64) × (length cache.now ≡ 512 * pages) }
    ensures verdict { is_some result ≡ leb (length (waiting_numbers cache.now (is_paired pairs.now.medium.now (read_log pairs.now.medium.now pairs.now.blocks)) (15 * pages))) 64 }
    ensures value { IfSome result (λ _. places.new ≡ open_places pairs.now.medium.now (read_log pairs.now.medium.now pairs.now.blocks) cache.now (15 * pages)) }
    ensures few { IfNone result (places.new ≡ places.old) }
{
    let list = crate::waiting::collect(pairs, cache, 15 * pages)?;
    *places = array::from_fn(|i| table_place(pairs, &list, i));
    for &waiting in list.iter() {
        take_log(pairs, waiting, places);
    }
    Some(())
}
