// Store page.
ghost use Rattle.std.specs.Prelude.{◌≡◌, cond, not, ◌<◌, length};
ghost use Rattle.fields.specs.Block.{blk, put, page_block_at};
ghost use Rattle.fields.specs.Equal.{eq_list};
ghost use Rattle.store.specs.Answer.{leaves};
ghost use Rattle.stores.specs.Sized.{Sized};
ghost use Rattle.store.specs.StorePage.{stamped_page, page_stored, store_page_of};

use store::{Answer, Refusal, State};

// Lays the stamped page over its block in cache and medium, unless the medium holds it already.
#[tactic(auto, unfolding(fields::specs::Block::page_block_at))]
fn lay(state: &mut State, medium: &mut [u8], cache: &mut [u8], page: u64) -> bool
    requires sized { Sized state.old (length medium.old) (length cache.old) }
    requires page_bound { page < state.old.pages }
    ensures value { result ≡ not (eq_list (blk medium.old (page_block_at state.old.blocks page)) (stamped_page state.old (blk cache.old page))) }
    ensures state_after { state.new ≡ cond result (page_stored state.old page (blk cache.old page)) state.old }
    ensures medium_after { medium.new ≡ cond result (put medium.old (page_block_at state.old.blocks page) (stamped_page state.old (blk cache.old page))) medium.old }
    ensures cache_after { cache.new ≡ cond result (put cache.old page (stamped_page state.old (blk cache.old page))) cache.old }
{
    let page_at = 512 * page as usize;
    let block_at = 512 * layout::place::page_block(state.blocks, page);
    if !pages::store(
        &mut state.places,
        state.end,
        &mut cache[page_at..page_at + 512],
        &mut medium[block_at..block_at + 512],
    ) {
        return false;
    }
    state.first[page as usize] = 0;
    true
}

#[tactic(auto, using(crate::proofs::StoreLaws::sized), unfolding(store::specs::StorePage::store_page_of, store::specs::StorePage::store_page_if))]
pub fn store_page(
    state: &mut State,
    medium: &mut [u8],
    cache: &mut [u8],
    page: u64,
) -> Result<Answer, Refusal>
    ensures { leaves result state.new medium.new cache.new ≡ store_page_of state.old medium.old cache.old page }
{
    questions::fit(state, medium, cache)?;
    if state.pages <= page {
        return Err(Refusal::NoPage);
    }
    if state.end < layout::page::end(crate::block(cache, page as usize)) {
        return Err(Refusal::NotLogged);
    }
    if !lay(state, medium, cache, page) {
        return Err(Refusal::Unchanged);
    }
    Ok(Answer::Done)
}
