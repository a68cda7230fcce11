// The types of the store: its state, its answers and its refusals. The definitions in specs/ say what each call does.
#![tactic(auto)]

ghost use Rattle.std.specs.Prelude.{◌≡◌};

use layout::{CommitTime, EndPlace, TxNumber};

// Record numbers are below this.
pub const RECORDS: u16 = 1024;

// What a place for a live transaction holds: nothing; an active transaction with its clock at begin; or a committed
// one with its time and the end place of its commit record (0: known from the pair table alone).
#[derive(Clone, Copy)]
pub enum Life {
    Free,
    Active(TxNumber, u64),
    Committed(TxNumber, CommitTime, EndPlace),
}

impl Life {
    ghost use Rattle.store.specs.Places.{is_free, active_as, committed_as, clock_of};

    pub fn is_free(self) -> bool
        ensures { result ≡ is_free self }
    {
        matches!(self, Life::Free)
    }

    pub fn is_active_as(self, number: u64) -> bool
        ensures { result ≡ active_as self number }
    {
        matches!(self, Life::Active(n, _) if n.0 == number)
    }

    pub fn is_committed_as(self, number: u64) -> bool
        ensures { result ≡ committed_as self number }
    {
        matches!(self, Life::Committed(n, _, _) if n.0 == number)
    }

    // The clock at begin; 0 if it is not active.
    pub fn clock(self) -> u64
        ensures { result ≡ clock_of self }
    {
        match self {
            Life::Active(_, clock) => clock,
            Life::Free | Life::Committed(_, _, _) => 0,
        }
    }
}

// A place, and how many versions of its transaction are not stamped on the medium.
#[derive(Clone, Copy)]
pub struct Place {
    pub life: Life,
    pub waiting: u64,
}

impl Place {
    ghost use Rattle.store.specs.Places.{free_place, raised, lowered};

    pub fn free() -> Place
        ensures { result ≡ free_place }
    {
        Place {
            life: Life::Free,
            waiting: 0,
        }
    }

    // One waiting version more; a count that a foreign state could overflow stays at the highest.
    pub fn raise(&mut self)
        ensures { self.new ≡ raised self.old }
    {
        self.waiting = self.waiting.saturating_add(1);
    }

    // One waiting version less; at none the place is free.
    pub fn lower(&mut self)
        ensures { self.new ≡ lowered self.old }
    {
        if self.waiting <= 1 {
            *self = Place::free();
        } else {
            self.waiting -= 1;
        }
    }
}

// The checkpoint under way: none; or its table block 1 is stored; or block 2 too. With it the new oldest sequence and
// the stored time that its first call fixed.
#[derive(Clone, Copy)]
pub enum Phase {
    Idle,
    FirstStored(u64, CommitTime),
    SecondStored(u64, CommitTime),
}

#[derive(Clone, Copy)]
pub struct State {
    // L, the log blocks, and D, the pages.
    pub blocks: u64,
    pub pages: u64,
    // The next slot: how many are used.
    pub slots: u64,
    // The next transaction number.
    pub next: TxNumber,
    // The last commit time given, and the last one stored.
    pub last: CommitTime,
    pub saved: CommitTime,
    // The end place up to which the log is stored.
    pub end: EndPlace,
    // The tail block of the log.
    pub tail: [u8; 512],
    // The live transactions, and the place at which the search for a free one begins.
    pub places: [Place; 64],
    pub ring: u64,
    // For each page the sequence of the block that first changed it since it was stored; 0: none.
    pub first: [u64; 64],
    pub phase: Phase,
}

impl State {
    ghost use Rattle.store.specs.State.{no_state};

    // No state: what a caller has before an opening, and what a refused one leaves.
    pub fn none() -> State
        ensures { result ≡ no_state }
    {
        State {
            blocks: 0,
            pages: 0,
            slots: 0,
            next: TxNumber(0),
            last: CommitTime(0),
            saved: CommitTime(0),
            end: EndPlace(0),
            tail: [0; 512],
            places: [Place::free(); 64],
            ring: 0,
            first: [0; 64],
            phase: Phase::Idle,
        }
    }
}

// Why a call is refused; `refusal_number` of specs/ gives the number of each.
#[derive(Clone, Copy)]
pub enum Refusal {
    BadSizes,
    BadCache,
    Malformed,
    NoPlace,
    NotActive,
    Held,
    NoSlot,
    LogFull,
    NoTime,
    NotYet,
    NoPage,
    NotLogged,
    Unchanged,
    ShortBuffer,
    NoNumber,
    Unfit,
    NoRecord,
}

// What a call answers that is not refused; `answer_number` and `answer_value` of specs/ give the numbers of each.
#[derive(Clone, Copy)]
pub enum Answer {
    Done,
    Begun(TxNumber),
    Written(u64),
    Committed(CommitTime),
    Opened(CommitTime),
    Missing,
    Erased,
    Present,
    Listed(u64),
}

// What a read finds: no version, an erased one, or a strip.
#[derive(Clone, Copy)]
pub enum Reading {
    Missing,
    Erased,
    Present([u8; 16]),
}

impl Reading {
    ghost use Rattle.store.specs.Reading.{answer_of, value_of};

    pub fn answer(self) -> Answer
        ensures { result ≡ answer_of self }
    {
        match self {
            Reading::Missing => Answer::Missing,
            Reading::Erased => Answer::Erased,
            Reading::Present(_) => Answer::Present,
        }
    }

    // The strip; zeros where there is none.
    pub fn value(self) -> [u8; 16]
        ensures { result ≡ value_of self }
    {
        match self {
            Reading::Missing | Reading::Erased => [0; 16],
            Reading::Present(value) => value,
        }
    }
}

// The next call out of a full log.
#[derive(Clone, Copy)]
pub enum Relief {
    StoreLog,
    StorePage(u64),
    Checkpoint,
}
