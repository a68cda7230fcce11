// A slot of the cache, by its number in the store.
#![tactic(auto, unfolding(store::specs::Chain::cell_at, layout::specs::Slot::cell_of))]

ghost use Rattle.std.specs.Prelude.{◌≡◌, suc, ◌%◌, length};
ghost use Rattle.layout.specs.Page.{cache_slot};
ghost use Rattle.store.specs.Chain.{cell_at, is_version};
ghost use Rattle.cached.specs.Room.{Room};

use layout::slot::Slot;

// The 32 bytes of a slot.
pub fn slot(cache: &[u8], n: u64) -> &[u8]
    requires { Room (length cache.now) (suc n) }
    ensures bytes { result.now ≡ cache_slot cache.now n }
    ensures len { length result.now ≡ 32 }
{
    let a = layout::place::slot_at(n);
    &cache[a..a + 32]
}

// What a slot of the cache says.
pub fn state_at(cache: &[u8], n: u64) -> Slot
    requires { Room (length cache.now) (suc n) }
    ensures { result ≡ (cell_at cache.now n).state }
{
    layout::slot::read(slot(cache, n))
}

// The record number of a slot.
pub fn key_at(cache: &[u8], n: u64) -> u16
    requires { Room (length cache.now) (suc n) }
    ensures { result ≡ (cell_at cache.now n).key }
{
    layout::slot::key(slot(cache, n))
}

// The low byte of a slot's record number.
pub fn low_at(cache: &[u8], n: u64) -> u8
    requires { Room (length cache.now) (suc n) }
    ensures { result ≡ (cell_at cache.now n).key % 256 }
{
    slot(cache, n)[1]
}

// The earlier slot that a slot names.
pub fn earlier_at(cache: &[u8], n: u64) -> u64
    requires { Room (length cache.now) (suc n) }
    ensures { result ≡ (cell_at cache.now n).earlier }
{
    fields::field::get2(slot(cache, n), 4)
}

// Is it a version? An empty slot is none.
pub fn is_version(slot: Slot) -> bool
    ensures { result ≡ is_version slot }
{
    !matches!(slot, Slot::Empty)
}
