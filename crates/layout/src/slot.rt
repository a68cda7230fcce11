// A slot of a page: 32 bytes.
ghost use Rattle.std.specs.Prelude.{◌≡◌, length};
ghost use Rattle.layout.specs.Slot.{slot_state, slot_key, slot_bytes, stamped, kind_form, slot_form};
ghost use Rattle.layout.specs.declared.slot.Slot.TheVariants.{Waiting};

use crate::{CommitTime, TxNumber};

#[derive(Clone, Copy, PartialEq, Eq, Debug)]
pub enum Slot {
    Empty,
    Waiting(TxNumber),
    Stamped(CommitTime),
}

// What the 32 bytes of a slot say.
#[tactic(auto, unfolding(crate::specs::Slot::slot_state))]
pub fn read(slot: &[u8]) -> Slot
    requires { length slot.now ≡ 32 }
    ensures { result ≡ slot_state slot.now }
{
    match slot[0] {
        1 => Slot::Waiting(TxNumber(fields::field::get8(slot, 8))),
        2 => Slot::Stamped(CommitTime(fields::field::get8(slot, 8))),
        _ => Slot::Empty,
    }
}

// The record number of a slot, of which byte 3 is the high byte.
#[tactic(auto, unfolding(crate::specs::Slot::slot_key))]
pub fn key(slot: &[u8]) -> u16
    requires { length slot.now ≡ 32 }
    ensures { result ≡ slot_key slot.now }
{
    u16::from_le_bytes([slot[1], slot[3]])
}

// Writes a version that waits under a number.
pub fn write_waiting(
    slot: &mut [u8],
    number: TxNumber,
    key: u16,
    kind: u8,
    earlier: u64,
    value: &[u8],
)
    requires slot_len { length slot.old ≡ 32 }
    requires value_len { length value.now ≡ 16 }
    ensures { slot.new ≡ slot_bytes (record { state = Waiting number; key = key; kind = kind; earlier = earlier; value = value.now }) }
{
    let [low, high] = key.to_le_bytes();
    slot[0] = 1;
    slot[1] = low;
    slot[2] = kind;
    slot[3] = high;
    fields::field::put2(slot, 4, earlier);
    slot[6..8].fill(0);
    fields::field::put8(slot, 8, number.0);
    slot[16..32].copy_from_slice(value);
}

// Puts a time in place of the number.
#[tactic(auto, unfolding(crate::specs::Slot::stamped))]
pub fn stamp(slot: &mut [u8], time: CommitTime)
    requires { length slot.old ≡ 32 }
    ensures { slot.new ≡ stamped slot.old time.0 }
{
    slot[0] = 2;
    fields::field::put8(slot, 8, time.0);
}

// Is the kind 0, or 1 with a value of zeros?
#[tactic(auto, unfolding(crate::specs::Slot::kind_form))]
pub fn kind_in_form(kind: u8, value: &[u8]) -> bool
    ensures { result ≡ kind_form kind value.now }
{
    kind == 0 || (kind == 1 && fields::block::all_zero(value))
}

// Is the slot in form for one that holds a version?
#[tactic(auto, unfolding(crate::specs::Slot::slot_form))]
pub fn in_form(slot: &[u8]) -> bool
    requires { length slot.now ≡ 32 }
    ensures { result ≡ slot_form slot.now }
{
    matches!(slot[0], 1 | 2)
        && slot[3] <= 3
        && fields::block::all_zero(&slot[6..8])
        && kind_in_form(slot[2], &slot[16..32])
}
