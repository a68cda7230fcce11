// A log block: sequence, used bytes, records, zeros.
ghost use Rattle.std.specs.Prelude.{◌≡◌, ◌+◌, ◌≤◌, ◌<◌, length};
ghost use Rattle.fields.specs.Field.{enc};
ghost use Rattle.fields.specs.Part.{splice};
ghost use Rattle.layout.specs.Item.{bytes_of};
ghost use Rattle.layout.specs.Journal.{version, commit, version_body, sequence_of, used_of, empty_block, add_record, used_form};
ghost use Rattle.layout.specs.Table.{pair_bytes};

use crate::item::{Pair, VersionHead};

// The sequence of a block.
#[tactic(auto, unfolding(crate::specs::Journal::sequence_of))]
pub fn sequence(block: &[u8]) -> u64
    requires { length block.now ≡ 512 }
    ensures { result ≡ sequence_of block.now }
{
    fields::field::get8(block, 0)
}

// The used bytes of a block, counted from its start.
#[tactic(auto, unfolding(crate::specs::Journal::used_of))]
pub fn used(block: &[u8]) -> u64
    requires { length block.now ≡ 512 }
    ensures { result ≡ used_of block.now }
{
    fields::field::get2(block, 8)
}

// Makes the block an empty one of the sequence.
pub fn begin(block: &mut [u8], sequence: u64)
    requires { length block.old ≡ 512 }
    ensures { block.new ≡ empty_block sequence }
{
    block.fill(0);
    fields::field::put8(block, 0, sequence);
    fields::field::put2(block, 8, 10);
}

// Writes a record number of n bytes behind the slot of a version record.
fn write_key(body: &mut [u8], n: usize, key: u16)
    requires { 2 + n ≤ length body.old }
    ensures { body.new ≡ splice body.old 2 (enc n key) }
{
    fields::field::put(&mut body[2..2 + n], u64::from(key));
}

// Writes the body of a version record.
fn write_version(body: &mut [u8], head: VersionHead, value: &[u8])
    requires body_len { length body.old ≡ 29 + bytes_of head.width }
    requires value_len { length value.now ≡ 16 }
    ensures { body.new ≡ version_body head value.now }
{
    let n = crate::item::bytes(head.width);
    fields::field::put2(body, 0, head.slot);
    write_key(body, n, head.key);
    body[2 + n] = head.kind;
    fields::field::put2(body, 3 + n, head.earlier);
    fields::field::put8(body, 5 + n, head.number.0);
    let a = 13 + n;
    body[a..a + 16].copy_from_slice(value);
}

// Writes the body of a commit record.
fn write_commit(body: &mut [u8], pair: Pair)
    requires { length body.old ≡ 16 }
    ensures { body.new ≡ pair_bytes pair }
{
    fields::field::put8(body, 0, pair.number.0);
    fields::field::put8(body, 8, pair.time.0);
}

// Puts a version record behind the used bytes.
pub fn add_version(block: &mut [u8], head: VersionHead, value: &[u8])
    requires block_len { length block.old ≡ 512 }
    requires bound { (10 ≤ used_of block.old) × (used_of block.old + 32 + bytes_of head.width ≤ 512) }
    requires value_len { length value.now ≡ 16 }
    ensures { block.new ≡ add_record block.old (version head value.now) }
{
    let n = 29 + crate::item::bytes(head.width);
    let at = used(block) as usize;
    let a = at + 3;
    crate::item::put_head(block, at, crate::item::tag(head.width), n);
    write_version(&mut block[a..a + n], head, value);
    fields::field::put2(block, 8, (a + n) as u64);
}

// Puts a commit record behind the used bytes.
pub fn add_commit(block: &mut [u8], pair: Pair)
    requires block_len { length block.old ≡ 512 }
    requires bound { (10 ≤ used_of block.old) × (used_of block.old + 19 ≤ 512) }
    ensures { block.new ≡ add_record block.old (commit pair) }
{
    let at = used(block) as usize;
    let a = at + 3;
    crate::item::put_head(block, at, 2, 16);
    write_commit(&mut block[a..a + 16], pair);
    fields::field::put2(block, 8, (a + 16) as u64);
}

// Are the used bytes in range, and zeros behind them?
#[tactic(auto, unfolding(crate::specs::Journal::used_form))]
pub fn in_form(block: &[u8]) -> bool
    requires { length block.now ≡ 512 }
    ensures { result ≡ used_form block.now }
{
    let n = used(block) as usize;
    (10..=512).contains(&n) && fields::block::all_zero(&block[n..])
}
