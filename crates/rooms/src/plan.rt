// What the program has to know of a line before it makes its call.
ghost use Rattle.std.specs.Prelude.{◌≡◌, true, false};
ghost use Rattle.rooms.specs.Room.{within_buffer, plan_of};

use script::call::Call;

// A line's letter, the stage of the room from which on it is played, and whether it leaves the room as it is.
#[derive(Clone, Copy)]
pub struct Plan {
    pub letter: u8,
    pub stage: u8,
    pub looks: bool,
}

// A line that changes the room.
fn changing(letter: u8, stage: u8) -> Plan
    ensures { result ≡ record { letter = letter; stage = stage; looks = false } }
{
    Plan {
        letter,
        stage,
        looks: false,
    }
}

// A line that looks.
fn looking(letter: u8, stage: u8) -> Plan
    ensures { result ≡ record { letter = letter; stage = stage; looks = true } }
{
    Plan {
        letter,
        stage,
        looks: true,
    }
}

// No stage plays a line that asks for a longer buffer than there is.
#[tactic(auto, unfolding(crate::specs::Room::within_buffer))]
fn within(bytes: u64, stage: u8) -> u8
    ensures { result ≡ within_buffer bytes stage }
{
    if bytes <= 40000 { stage } else { 4 }
}

#[tactic(auto, unfolding(crate::specs::Room::plan_of))]
pub fn of(call: Call) -> Plan
    ensures { result ≡ plan_of call }
{
    match call {
        Call::Format(_, _) => changing(b'F', 1),
        Call::Open(_) => changing(b'O', 2),
        Call::OpenSized(bytes) => changing(b'o', within(bytes, 2)),
        Call::Cut => changing(b'X', 2),
        Call::Begin(_) => changing(b'B', 3),
        Call::Write(_, _) => changing(b'W', 3),
        Call::Erase(_, _) => changing(b'E', 3),
        Call::Read(_, _) => looking(b'R', 3),
        Call::Commit(_, _) => changing(b'C', 3),
        Call::Abort(_) => changing(b'A', 3),
        Call::Hand(_, _, _, _, _) => changing(b'H', 3),
        Call::AsOf(_, _) => looking(b'Q', 3),
        Call::Changes(_, _, _, bytes) => looking(b'L', within(bytes, 3)),
        Call::StoreLog => changing(b'S', 3),
        Call::StorePage(_) => changing(b'P', 3),
        Call::Checkpoint => changing(b'K', 3),
        Call::Block(_) => looking(b'M', 2),
        Call::Page(_) => looking(b'V', 2),
        Call::Poke(_, _) => changing(b'Z', 2),
        Call::Other => changing(0, 4),
    }
}
