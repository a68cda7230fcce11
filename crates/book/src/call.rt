// What a line of the script asks for.
ghost use Rattle.std.specs.Prelude.{◌≡◌};
ghost use Rattle.book.specs.Line.{meaning_of};

use script::line::Line;

// A call, or a cut.
#[derive(Clone, Copy)]
pub enum Call {
    Begin(u64),
    Write(u64, u16, u8),
    Commit(u64, u64),
    Query(u16, u64),
    Cut,
}

impl Call {
    ghost use Rattle.book.specs.Room.{letter_of};

    #[tactic(auto, unfolding(crate::specs::Room::letter_of))]
    pub fn letter(self) -> u8
        ensures { result ≡ letter_of self }
    {
        match self {
            Call::Begin(_) => b'B',
            Call::Write(_, _, _) => b'W',
            Call::Commit(_, _) => b'C',
            Call::Query(_, _) => b'Q',
            Call::Cut => b'X',
        }
    }
}

// What a line asks for that ends here, if it is of no other form; a record is at most 255.
#[tactic(auto, using(script::proofs::ReaderLaws::seen), unfolding(crate::specs::Line::meaning_of, crate::specs::Line::form_call, crate::specs::Line::call_of, crate::specs::Line::write_if, crate::specs::Line::query_if))]
pub fn meaning(line: Line) -> Option<Call>
    ensures { result ≡ meaning_of line }
{
    if line.bad || line.letter == 0 {
        return None;
    }
    if line.count == 0 {
        return (line.letter == b'X').then_some(Call::Cut);
    }
    let last = line.last_number()?;
    match (line.letter, line.count) {
        (b'B', 1) => Some(Call::Begin(last)),
        (b'C', 2) => Some(Call::Commit(line.second, last)),
        (b'Q', 2) => {
            let key = u8::try_from(line.second).ok()?;
            Some(Call::Query(u16::from(key), last))
        }
        (b'W', 3) => {
            let key = u8::try_from(line.second).ok()?;
            let byte = u8::try_from(last).ok()?;
            Some(Call::Write(line.third, u16::from(key), byte))
        }
        _ => None,
    }
}
