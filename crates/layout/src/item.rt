// Tag, length, content: log records and master fields.
ghost use Rattle.std.specs.Prelude.{◌≡◌, ◌+◌, ◌≤◌, ◌<◌, ◌∷◌, ◌↔◌, length, take, IsSome, IfSome};
ghost use Rattle.fields.specs.Field.{enc};
ghost use Rattle.fields.specs.Part.{splice};
ghost use Rattle.layout.specs.Item.{bytes_of, tag_of, head_of, pair_of, item_of, number_item, version_item, commit_item};

use crate::{CommitTime, TxNumber};

// How many bytes the record number takes in a version record: one under tag 1, two under tag 3.
#[derive(Clone, Copy, PartialEq, Eq, Debug)]
pub enum Width {
    One,
    Two,
}

// The fields of a version record but for its value, which stays where it lies. A key is a record number.
#[derive(Clone, Copy, PartialEq, Eq, Debug)]
pub struct VersionHead {
    pub width: Width,
    pub slot: u64,
    pub key: u16,
    pub kind: u8,
    pub earlier: u64,
    pub number: TxNumber,
}

// A transaction and its commit time: a commit record, or a place of the pair table.
#[derive(Clone, Copy, PartialEq, Eq, Debug)]
pub struct Pair {
    pub number: TxNumber,
    pub time: CommitTime,
}

// What an item belongs to: the same tag means other things in the log and in the master.
#[derive(Clone, Copy, PartialEq, Eq, Debug)]
pub enum Area {
    Journal,
    Master,
}

#[derive(Clone, Copy, PartialEq, Eq, Debug)]
pub enum Item {
    End,
    Version(VersionHead),
    Commit(Pair),
    Number(u8, u64),
    Damaged,
}

// The bytes of a record number.
#[tactic(auto, unfolding(crate::specs::Item::bytes_of))]
pub fn bytes(width: Width) -> usize
    ensures { result ≡ bytes_of width }
{
    match width {
        Width::One => 1,
        Width::Two => 2,
    }
}

// The tag of a version record.
#[tactic(auto, unfolding(crate::specs::Item::tag_of))]
pub(crate) fn tag(width: Width) -> u8
    ensures { result ≡ tag_of width }
{
    match width {
        Width::One => 1,
        Width::Two => 3,
    }
}

// Writes tag and length of an item at `at`; its content follows.
pub(crate) fn put_head(bytes: &mut [u8], at: usize, tag: u8, len: usize)
    requires { at + 3 ≤ length bytes.old }
    ensures { bytes.new ≡ splice bytes.old at (tag ∷ enc 2 len) }
{
    bytes[at] = tag;
    fields::field::put2(bytes, at + 1, len as u64);
}

// The fields of a version record's body.
#[tactic(auto, unfolding(crate::specs::Item::bytes_of, crate::specs::Item::head_of))]
fn version_head(width: Width, body: &[u8]) -> VersionHead
    requires { 29 + bytes_of width ≤ length body.now }
    ensures { result ≡ head_of width body.now }
{
    let n = bytes(width);
    VersionHead {
        width,
        slot: fields::field::get2(body, 0),
        key: fields::field::get(&body[2..2 + n]) as u16,
        kind: body[2 + n],
        earlier: fields::field::get2(body, 3 + n),
        number: TxNumber(fields::field::get8(body, 5 + n)),
    }
}

// A number and a time, one behind the other.
#[tactic(auto, unfolding(crate::specs::Item::pair_of))]
pub fn read_pair(body: &[u8]) -> Pair
    requires { 16 ≤ length body.now }
    ensures { result ≡ pair_of body.now }
{
    Pair {
        number: TxNumber(fields::field::get8(body, 0)),
        time: CommitTime(fields::field::get8(body, 8)),
    }
}

// The first `want` bytes of a body, if the length that was read is that and the body holds them.
fn whole(want: usize, len: u64, body: &[u8]) -> Option<&[u8]>
    ensures variant { IsSome result ↔ ((len ≡ want) × (want ≤ length body.now)) }
    ensures value { IfSome result (λ content. content.now ≡ take want body.now) }
{
    if len != want as u64 {
        return None;
    }
    body.get(..want)
}

#[tactic(auto, using(crate::proofs::RecordLaws::head_taken), unfolding(crate::specs::Item::bytes_of, crate::specs::Item::version_item))]
fn version_item(width: Width, len: u64, body: &[u8]) -> Item
    ensures { result ≡ version_item width len body.now }
{
    let Some(body) = whole(29 + bytes(width), len, body) else {
        return Item::Damaged;
    };
    Item::Version(version_head(width, body))
}

#[tactic(auto, unfolding(crate::specs::Item::commit_item, crate::specs::Item::pair_of))]
fn commit_item(len: u64, body: &[u8]) -> Item
    ensures { result ≡ commit_item len body.now }
{
    let Some(body) = whole(16, len, body) else {
        return Item::Damaged;
    };
    Item::Commit(read_pair(body))
}

#[tactic(auto, unfolding(crate::specs::Item::number_item))]
fn number_item(tag: u8, want: usize, len: u64, body: &[u8]) -> Item
    requires { want ≤ 8 }
    ensures { result ≡ number_item tag want len body.now }
{
    let Some(body) = whole(want, len, body) else {
        return Item::Damaged;
    };
    Item::Number(tag, fields::field::get(body))
}

// The first item of the bytes. One match over the tag serves both areas; an unknown tag, a wrong length and an item
// that the bytes do not hold whole are damage.
#[tactic(auto, unfolding(crate::specs::Item::item_of, crate::specs::Item::by_tag))]
pub fn read(area: Area, bytes: &[u8]) -> Item
    ensures { result ≡ item_of area bytes.now }
{
    if bytes.is_empty() {
        return Item::End;
    }
    if bytes.len() < 3 {
        return Item::Damaged;
    }
    let tag = bytes[0];
    let len = fields::field::get2(bytes, 1);
    let body = &bytes[3..];
    match (area, tag) {
        (Area::Journal, 1) => version_item(Width::One, len, body),
        (Area::Journal, 2) => commit_item(len, body),
        (Area::Journal, 3) => version_item(Width::Two, len, body),
        (Area::Master, 1 | 2) => number_item(tag, 2, len, body),
        (Area::Master, 3..=5) => number_item(tag, 8, len, body),
        _ => Item::Damaged,
    }
}
