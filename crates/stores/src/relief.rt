// Out of a full log: which call comes next.
ghost use Rattle.std.specs.Prelude.{◌≡◌, true, ◌<◌, length};
ghost use Rattle.store.specs.State.{fits};
ghost use Rattle.store.specs.StorePage.{store_page_asks};
ghost use Rattle.store.specs.Relief.{all_yes, page_left, relief_of};

use store::{Relief, State};

// Is the page left to be stored: is its end place stored, and would a byte on the medium change?
#[tactic(auto, using(crate::proofs::StoreLaws::sized), unfolding(fields::specs::Block::page_block_at))]
fn is_left(state: &State, medium: &[u8], cache: &[u8], page: u64) -> bool
    requires fit { fits state.now (length medium.now) (length cache.now) ≡ true }
    requires page_bound { page < state.now.pages }
    ensures { result ≡ all_yes (store_page_asks state.now medium.now cache.now page) }
{
    let cached = crate::block(cache, page as usize);
    let block = crate::block(medium, layout::place::page_block(state.blocks, page));
    layout::page::end(cached) <= state.end && !pages::holds(state, cached, block)
}

// The first page that is left.
fn page_left(state: &State, medium: &[u8], cache: &[u8]) -> Option<u64>
    requires { fits state.now (length medium.now) (length cache.now) ≡ true }
    ensures { result ≡ page_left state.now medium.now cache.now }
{
    (0..state.pages).find(|&page| is_left(state, medium, cache, page))
}

// The next call of these, if one is left: store the log, store each page, finish a checkpoint under way and make one more.
#[tactic(auto, using(crate::proofs::StoreLaws::sized, tail::proofs::TailLaws::ready), unfolding(store::specs::Relief::relief_of))]
pub fn relief(state: &State, medium: &[u8], cache: &[u8]) -> Option<Relief>
    ensures { result ≡ relief_of state.now medium.now cache.now }
{
    if !memory::fit::is_fit(state, medium.len(), cache.len()) {
        return None;
    }
    if !crate::store_log::is_stored(state, medium) {
        return Some(Relief::StoreLog);
    }
    if let Some(page) = page_left(state, medium, cache) {
        return Some(Relief::StorePage(page));
    }
    checkpoints::is_left(state, medium).then_some(Relief::Checkpoint)
}
