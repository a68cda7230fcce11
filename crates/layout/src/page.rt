// A page: 32 header bytes, then 15 slots.
ghost use Rattle.std.specs.Prelude.{◌≡◌, ◌+◌, ◌≤◌, ◌<◌, ◌*◌, length};
ghost use Rattle.fields.specs.Block.{page_of};
ghost use Rattle.layout.specs.Page.{page_end, page_used, put_cell, stamp_cell, page_form, slot_form_at, put_version};
ghost use Rattle.layout.specs.declared.slot.Slot.TheVariants.{Waiting};

use crate::{CommitTime, EndPlace, TxNumber};

// The end place of the last record put into the page.
#[tactic(auto, unfolding(crate::specs::Page::page_end))]
pub fn end(page: &[u8]) -> EndPlace
    requires { length page.now ≡ 512 }
    ensures { result.0 ≡ page_end page.now }
{
    EndPlace(fields::field::get8(page, 0))
}

// How many slots of the page are used.
#[tactic(auto, unfolding(crate::specs::Page::page_used))]
pub fn used(page: &[u8]) -> u8
    requires { length page.now ≡ 512 }
    ensures { result ≡ page_used page.now }
{
    page[8]
}

// Puts a version that waits under a number into slot i.
#[tactic(auto, unfolding(fields::specs::Block::slot_in))]
pub fn put_waiting(
    page: &mut [u8],
    i: usize,
    end: EndPlace,
    number: TxNumber,
    key: u16,
    kind: u8,
    earlier: u64,
    value: &[u8],
)
    requires page_len { length page.old ≡ 512 }
    requires i_bound { i < 15 }
    requires value_len { length value.now ≡ 16 }
    ensures { page.new ≡ put_cell page.old i end.0 (record { state = Waiting number; key = key; kind = kind; earlier = earlier; value = value.now }) }
{
    fields::field::put8(page, 0, end.0);
    page[8] = (i + 1) as u8;
    let a = crate::place::slot_in(i);
    crate::slot::write_waiting(&mut page[a..a + 32], number, key, kind, earlier, value);
}

// Stamps slot i.
#[tactic(auto, unfolding(fields::specs::Block::slot_in))]
pub fn stamp(page: &mut [u8], i: usize, time: CommitTime)
    requires page_len { length page.old ≡ 512 }
    requires i_bound { i < 15 }
    ensures { page.new ≡ stamp_cell page.old i time.0 }
{
    let a = crate::place::slot_in(i);
    crate::slot::stamp(&mut page[a..a + 32], time);
}

// Is a slot of the page in form: a version's below the used ones, zeros from there on?
#[tactic(auto, unfolding(crate::specs::Page::slot_form_at, crate::specs::Page::page_used, crate::specs::Page::page_slot, fields::specs::Block::slot_in))]
pub fn slot_in_form(page: &[u8], i: usize) -> bool
    requires page_len { length page.now ≡ 512 }
    requires i_bound { i < 15 }
    ensures { result ≡ slot_form_at page.now i }
{
    let a = crate::place::slot_in(i);
    let slot = &page[a..a + 32];
    if i < usize::from(page[8]) {
        crate::slot::in_form(slot)
    } else {
        fields::block::all_zero(slot)
    }
}

// Is the page in form?
pub fn in_form(page: &[u8]) -> bool
    requires { length page.now ≡ 512 }
    ensures { result ≡ page_form page.now }
{
    page[8] <= 15 && fields::block::all_zero(&page[9..32]) && (0..15).all(|i| slot_in_form(page, i))
}

// Puts a version into slot n of the store: its page of the cache, then its slot, lent on.
pub fn put_version(
    cache: &mut [u8],
    n: u64,
    end: EndPlace,
    number: TxNumber,
    key: u16,
    kind: u8,
    earlier: u64,
    value: &[u8],
)
    requires n_bound { n < 960 }
    requires n_in_bounds { 512 * page_of n + 512 ≤ length cache.old }
    requires value_len { length value.now ≡ 16 }
    ensures { cache.new ≡ put_version cache.old n end.0 (record { state = Waiting number; key = key; kind = kind; earlier = earlier; value = value.now }) }
{
    let i = (n % 15) as usize;
    let a = (512 * (n / 15)) as usize;
    put_waiting(
        &mut cache[a..a + 512],
        i,
        end,
        number,
        key,
        kind,
        earlier,
        value,
    );
}
