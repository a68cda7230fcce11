// Where things lie.
ghost use Rattle.std.specs.Prelude.{◌≡◌, ◌+◌, ◌≤◌, ◌<◌, ◌*◌, ◌^◌};
ghost use Rattle.fields.specs.Block.{log_block_at, page_block_at, medium_length, cache_length, page_of, slot_in, slot_at, end_place, block_of_end};

use crate::EndPlace;

// The block of a sequence.
#[tactic(auto, unfolding(fields::specs::Block::log_block_at))]
pub fn log_block(blocks: u64, sequence: u64) -> usize
    requires { (1 ≤ blocks) × (blocks ≤ 32) }
    ensures { result ≡ log_block_at blocks sequence }
{
    (3 + sequence % blocks) as usize
}

// The block of a page.
#[tactic(auto, unfolding(fields::specs::Block::page_block_at))]
pub fn page_block(blocks: u64, page: u64) -> usize
    requires { (blocks ≤ 32) × (page ≤ 64) }
    ensures { result ≡ page_block_at blocks page }
{
    (3 + blocks + page) as usize
}

// The length of a medium.
#[tactic(auto, unfolding(fields::specs::Block::medium_length))]
pub fn medium_length(blocks: u64, pages: u64) -> usize
    requires { (blocks ≤ 32) × (pages ≤ 64) }
    ensures { result ≡ medium_length blocks pages }
{
    (512 * (3 + blocks + pages)) as usize
}

// The length of a cache.
#[tactic(auto, unfolding(fields::specs::Block::cache_length))]
pub fn cache_length(pages: u64) -> usize
    requires { pages ≤ 64 }
    ensures { result ≡ cache_length pages }
{
    (512 * pages) as usize
}

// The page of a slot.
#[tactic(auto, unfolding(fields::specs::Block::page_of))]
pub fn page_of(slot: u64) -> u64
    ensures { result ≡ page_of slot }
{
    slot / 15
}

// The offset in a page of its slot i.
#[tactic(auto, unfolding(fields::specs::Block::slot_in))]
pub fn slot_in(i: usize) -> usize
    requires { i < 15 }
    ensures { result ≡ slot_in i }
{
    32 + 32 * i
}

// The offset of a slot in a cache.
#[tactic(auto, unfolding(fields::specs::Block::slot_at))]
pub fn slot_at(slot: u64) -> usize
    requires { slot < 65536 }
    ensures { result ≡ slot_at slot }
{
    (512 * (slot / 15) + (32 + 32 * (slot % 15))) as usize
}

// The end place of a record that ends at an offset of a block.
#[tactic(auto, unfolding(fields::specs::Block::end_place))]
pub fn end_place(sequence: u64, offset: u64) -> EndPlace
    requires { (sequence < 2 ^ 48) × (offset ≤ 65535) }
    ensures { result.0 ≡ end_place sequence offset }
{
    EndPlace(512 * sequence + offset)
}

// The sequence of the block in which the record with the end place lies.
#[tactic(auto, unfolding(fields::specs::Block::block_of_end))]
pub fn block_of_end(end: EndPlace) -> u64
    ensures { result ≡ block_of_end end.0 }
{
    end.0.saturating_sub(1) / 512
}
