// Handing a flight from one sector to another as one action, above the store: its code makes the store's public calls
// and touches no byte of medium or cache. The definitions in specs/ say what it does.
#![tactic(auto)]

ghost use Rattle.std.specs.Prelude.{◌≡◌};
ghost use Rattle.handover.specs.declared.HandRefusal.TheVariants.{Denied};

use store::Refusal;

pub mod hand;

// What is asked for: the flight's record, the sector that has it and the one that takes it, and the clocks at begin and
// at commit.
#[derive(Clone, Copy)]
pub struct Transfer {
    pub flight: u16,
    pub from: u8,
    pub to: u8,
    pub began: u64,
    pub ended: u64,
}

// Why a handover is refused: a refusal of the store's, or its own refusal 17; `hand_number` of specs/ gives the number
// of each.
#[derive(Clone, Copy)]
pub enum HandRefusal {
    Denied(Refusal),
    NotOwner,
}

impl From<Refusal> for HandRefusal {
    ghost from_gives = { λ why r. r ≡ Denied why };

    fn from(why: Refusal) -> HandRefusal {
        HandRefusal::Denied(why)
    }
}
