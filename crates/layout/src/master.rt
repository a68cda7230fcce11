// The master: five fields, then zeros.
ghost use Rattle.std.specs.Prelude.{◌≡◌, ◌+◌, ◌≤◌, length};
ghost use Rattle.fields.specs.Part.{splice};
ghost use Rattle.layout.specs.Item.{item_bytes};
ghost use Rattle.layout.specs.Master.{master_bytes, field_of, master_of, oldest_on};

use crate::item::{Area, Item};
use crate::{CommitTime, TxNumber};

// The master's numbers: log blocks (L), pages (D), the oldest log block's sequence, the next transaction number and
// the last stored commit time.
#[derive(Clone, Copy, PartialEq, Eq, Debug)]
pub struct Fields {
    pub blocks: u64,
    pub pages: u64,
    pub oldest: u64,
    pub next: TxNumber,
    pub last: CommitTime,
}

// The number of the field with the tag, if that is at the front of the bytes.
#[tactic(auto, unfolding(crate::specs::Master::field_of))]
fn field(tag: u8, bytes: &[u8]) -> Option<u64>
    ensures { result ≡ field_of tag bytes.now }
{
    match crate::item::read(Area::Master, bytes) {
        Item::Number(found, n) if found == tag => Some(n),
        _ => None,
    }
}

// The master's fields, if the block is a master.
#[tactic(auto, using(crate::proofs::MasterLaws::master_lent))]
pub fn read(block: &[u8]) -> Option<Fields>
    requires { length block.now ≡ 512 }
    ensures { result ≡ master_of block.now }
{
    let blocks = field(1, block)?;
    let pages = field(2, &block[5..])?;
    let oldest = field(3, &block[10..])?;
    let next = field(4, &block[21..])?;
    let last = field(5, &block[32..])?;
    if !fields::block::all_zero(&block[43..]) {
        return None;
    }
    Some(Fields {
        blocks,
        pages,
        oldest,
        next: TxNumber(next),
        last: CommitTime(last),
    })
}

// Writes a field at `at`.
fn put_field(block: &mut [u8], at: usize, tag: u8, content: &[u8])
    requires { at + 3 + length content.now ≤ length block.old }
    ensures { block.new ≡ splice block.old at (item_bytes tag content.now) }
{
    let a = at + 3;
    crate::item::put_head(block, at, tag, content.len());
    block[a..a + content.len()].copy_from_slice(content);
}

// Writes the master.
pub fn write(block: &mut [u8], f: Fields)
    requires { length block.old ≡ 512 }
    ensures { block.new ≡ master_bytes f }
{
    block.fill(0);
    put_field(block, 0, 1, &f.blocks.to_le_bytes()[..2]);
    put_field(block, 5, 2, &f.pages.to_le_bytes()[..2]);
    put_field(block, 10, 3, &f.oldest.to_le_bytes());
    put_field(block, 21, 4, &f.next.0.to_le_bytes());
    put_field(block, 32, 5, &f.last.0.to_le_bytes());
}

// The oldest log block's sequence, by its place alone.
#[tactic(auto, unfolding(crate::specs::Master::oldest_on))]
pub fn oldest(medium: &[u8]) -> u64
    requires { 21 ≤ length medium.now }
    ensures { result ≡ oldest_on medium.now }
{
    fields::field::get8(medium, 13)
}
