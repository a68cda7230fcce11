// The three stores of a checkpoint: which block is to be the oldest, the pair table's two blocks, the master.
#![tactic(auto)]

ghost use Rattle.std.specs.Prelude.{◌≡◌, List, ℕ, ◌-◌, ◌*◌, ◌≤◌, length, Ok};
ghost use Rattle.fields.specs.Part.{splice};
ghost use Rattle.fields.specs.Block.{put};
ghost use Rattle.fields.specs.Cells.{flat};
ghost use Rattle.layout.specs.Table.{pair_bytes};
ghost use Rattle.layout.specs.Master.{master_bytes};
ghost use Rattle.store.specs.declared.Answer.TheVariants.{Done};
ghost use Rattle.store.specs.Answer.{leaves};
ghost use Rattle.store.specs.Checkpoint.{new_oldest, pair_below, table_block, checkpoint_step};
ghost use Rattle.store.specs.Relief.{checkpoint_left};
ghost use Rattle.checkpoints.specs.Pairs.{pairs_of};

use layout::item::Pair;
use layout::master::Fields;
use layout::{CommitTime, TxNumber};
use store::{Life, Phase, Place, State};

// The pairs that fill a block of the table.
const BLOCK_PAIRS: usize = 32;

// The new oldest sequence: the least block that first changed a page not stored since, or the tail.
fn new_oldest(state: &State) -> u64
    requires { state.now.pages ≤ 64 }
    ensures { result ≡ new_oldest state.now }
{
    state.first[..state.pages as usize]
        .iter()
        .copied()
        .filter(|&sequence| sequence != 0)
        .min()
        .unwrap_or(layout::journal::sequence(&state.tail))
}

// The pair that the table has for a place: that of a commit below the oldest block.
fn pair_of(life: Life, oldest: u64) -> Pair
    ensures { result ≡ pair_below oldest life }
{
    match life {
        Life::Committed(number, time, end) if end.0 <= oldest.saturating_mul(512) => Pair {
            number,
            time,
        },
        _ => Pair {
            number: TxNumber(0),
            time: CommitTime(0),
        },
    }
}

// Lays the pairs of the places over the front of a block, each in the room of its place.
fn lay_pairs(block: &mut [u8], places: &[Place], oldest: u64)
    requires block_len { length block.old ≡ 512 }
    requires places_len { length places.now ≤ 32 }
    ensures { block.new ≡ splice block.old 0 (flat pair_bytes (pairs_of oldest places.now)) }
{
    for (i, place) in places.iter().enumerate() {
        layout::table::write(block, i, pair_of(place.life, oldest));
    }
}

// Stores block k of the medium, the table's first or second, with the pairs of its half of the places.
fn store_table(medium: &mut [u8], k: usize, places: &[Place; 64], oldest: u64)
    requires k_bound { (1 ≤ k) × (k ≤ 2) }
    requires medium_len { 1536 ≤ length medium.old }
    ensures { medium.new ≡ put medium.old k (table_block places.now oldest (32 * (k - 1))) }
{
    let at = 512 * k;
    let from = BLOCK_PAIRS * (k - 1);
    lay_pairs(
        &mut medium[at..at + 512],
        &places[from..from + BLOCK_PAIRS],
        oldest,
    );
}

// Stores the master with what the first call fixed, and the next number of this call.
fn store_master(state: &State, medium: &mut [u8], oldest: u64, last: CommitTime)
    requires { 512 ≤ length medium.old }
    ensures { medium.new ≡ put medium.old 0 (master_bytes (record { blocks = state.now.blocks; pages = state.now.pages; oldest = oldest; next = state.now.next; last = last })) }
{
    layout::master::write(
        &mut medium[..512],
        Fields {
            blocks: state.blocks,
            pages: state.pages,
            oldest,
            next: state.next,
            last,
        },
    );
}

// Is a call left: is a checkpoint under way, or would one move the oldest block?
pub fn is_left(state: &State, medium: &[u8]) -> bool
    requires { (state.now.pages ≤ 64) × (512 ≤ length medium.now) }
    ensures { result ≡ checkpoint_left state.now medium.now }
{
    match state.phase {
        Phase::Idle => new_oldest(state) != layout::master::oldest(medium),
        Phase::FirstStored(_, _) | Phase::SecondStored(_, _) => true,
    }
}

// The next of the three stores. It writes one block, in place.
pub fn step(state: &mut State, medium: &mut [u8])
    requires { (state.old.pages ≤ 64) × (1536 ≤ length medium.old) }
    ensures { (cache : List ℕ) → leaves (Ok Done) state.new medium.new cache ≡ checkpoint_step state.old.phase state.old medium.old cache }
{
    match state.phase {
        Phase::Idle => {
            let oldest = new_oldest(state);
            store_table(medium, 1, &state.places, oldest);
            state.phase = Phase::FirstStored(oldest, state.saved);
        }
        Phase::FirstStored(oldest, saved) => {
            store_table(medium, 2, &state.places, oldest);
            state.phase = Phase::SecondStored(oldest, saved);
        }
        Phase::SecondStored(oldest, saved) => {
            store_master(state, medium, oldest, saved);
            state.phase = Phase::Idle;
        }
    }
}
