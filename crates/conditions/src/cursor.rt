// The log's records, read one after the other.
ghost use Rattle.std.specs.Prelude.{◌≡◌, ◌+◌, ◌-◌, ◌*◌, ◌<◌, ◌≤◌, ◌^◌, length, drop};
ghost use Rattle.fields.specs.Block.{log_block_at, end_place};
ghost use Rattle.layout.specs.Item.{item_of};
ghost use Rattle.layout.specs.declared.item.Area.TheVariants.{Journal};
ghost use Rattle.layout.specs.Journal.{body_of};
ghost use Rattle.conditions.specs.Cursor.{step_of, Ready, Valid};

use layout::EndPlace;
use layout::item::{Area, Item, Pair, VersionHead};

// Where the reading stands: the sequence of a block, an offset in it, and how many blocks are left with this one.
#[derive(Clone, Copy)]
pub struct Cursor {
    pub sequence: u64,
    pub at: u64,
    pub left: u64,
}

// What comes next: nothing; the next block; a version record, with the place of its value on the medium, its end place
// and the cursor behind it; or a commit record.
#[derive(Clone, Copy)]
pub enum Step {
    Done,
    Skip(Cursor),
    Written(VersionHead, u64, EndPlace, Cursor),
    Committed(Pair, EndPlace, Cursor),
}

// The offset of a sequence's block on the medium.
pub fn block_start(blocks: u64, sequence: u64) -> usize
    requires { (1 ≤ blocks) × (blocks ≤ 32) }
    ensures { result ≡ 512 * log_block_at blocks sequence }
{
    512 * layout::place::log_block(blocks, sequence)
}

// The offset behind a block's records: its used bytes, where they are in range.
pub fn body_end(block: &[u8]) -> usize
    requires { length block.now ≡ 512 }
    ensures { result ≡ 10 + length (body_of block.now) }
{
    (layout::journal::used(block) as usize).clamp(10, 512)
}

// The item of a block at an offset.
pub fn item_at(block: &[u8], at: usize) -> Item
    requires block_len { length block.now ≡ 512 }
    requires le_at { 10 ≤ at }
    ensures { result ≡ item_of Journal (drop (at - 10) (body_of block.now)) }
{
    let end = body_end(block);
    if end <= at {
        return Item::End;
    }
    layout::item::read(Area::Journal, &block[at..end])
}

// What comes next at the cursor.
pub fn next(medium: &[u8], blocks: u64, cursor: Cursor) -> Step
    requires ready { Ready blocks (length medium.now) }
    requires valid { Valid cursor }
    ensures { result ≡ step_of medium.now blocks cursor }
{
    let Cursor { sequence, at, left } = cursor;
    if left == 0 {
        return Step::Done;
    }
    let start = block_start(blocks, sequence);
    match item_at(&medium[start..start + 512], at as usize) {
        Item::Version(head) => {
            let width = head.width;
            let length = 32 + layout::item::bytes(width) as u64;
            Step::Written(
                head,
                start as u64 + at + (length - 16),
                end_behind(sequence, at + length),
                Cursor {
                    sequence,
                    at: at + length,
                    left,
                },
            )
        }
        Item::Commit(pair) => Step::Committed(
            pair,
            end_behind(sequence, at + 19),
            Cursor {
                sequence,
                at: at + 19,
                left,
            },
        ),
        Item::End | Item::Number(_, _) | Item::Damaged => Step::Skip(skip(sequence, left)),
    }
}

// The end place of a record that ends at an offset of a block; the sequences that are read may pass 2^48.
fn end_behind(sequence: u64, offset: u64) -> EndPlace
    requires { (sequence < 2 ^ 49) × (offset ≤ 1024) }
    ensures { result ≡ record { 0 = end_place sequence offset } }
{
    EndPlace(512 * sequence + offset)
}

// The cursor at the start of the block behind a sequence's.
fn skip(sequence: u64, left: u64) -> Cursor
    requires { (sequence < 2 ^ 49) × (1 ≤ left) }
    ensures { result ≡ record { sequence = sequence + 1; at = 10; left = left - 1 } }
{
    Cursor {
        sequence: sequence + 1,
        at: 10,
        left: left - 1,
    }
}
