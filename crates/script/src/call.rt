// What a line of `replay` asks for.
ghost use Rattle.std.specs.Prelude.{◌≡◌, unwrap_or};
ghost use Rattle.script.specs.Reader.{last_word};
ghost use Rattle.script.specs.Replay.{plain, wordless, one_number, two_numbers, two_words, write_by, four_numbers};
ghost use Rattle.script.specs.Replay.{five_numbers, meaning_of};

use crate::line::Line;

// The most bytes that a buffer or a cache of a script has.
const MOST_BYTES: u64 = 40000;

// A call, a handover, a cut, or one of the lines that look at the bytes or put one; a write's value stands beside it.
#[derive(Clone, Copy)]
pub enum Call {
    Format(u64, u64),
    Open(u8),
    OpenSized(u64),
    Cut,
    Begin(u64),
    Write(u64, u16),
    Erase(u64, u16),
    Read(u64, u16),
    Commit(u64, u64),
    Abort(u64),
    Hand(u16, u8, u8, u64, u64),
    AsOf(u16, u64),
    Changes(u16, u64, u64, u64),
    StoreLog,
    StorePage(u64),
    Checkpoint,
    Block(u64),
    Page(u64),
    Poke(u64, u8),
    Other,
}

// A call, and the value of a write; zeros beside other calls.
#[derive(Clone, Copy)]
pub struct Asked {
    pub call: Call,
    pub value: [u8; 16],
}

#[tactic(auto, unfolding(crate::specs::Replay::plain))]
fn plain(call: Call) -> Asked
    ensures { result ≡ plain call }
{
    Asked {
        call,
        value: [0; 16],
    }
}

// What a letter alone asks for.
#[tactic(auto, unfolding(crate::specs::Replay::wordless))]
fn wordless(letter: u8) -> Option<Call>
    ensures { unwrap_or result Call.Other ≡ wordless letter }
{
    match letter {
        b'X' => Some(Call::Cut),
        b'S' => Some(Call::StoreLog),
        b'K' => Some(Call::Checkpoint),
        _ => None,
    }
}

// A letter and a number.
#[tactic(auto, unfolding(crate::specs::Replay::one_number, crate::specs::Replay::at_most))]
fn one_number(letter: u8, n: u64) -> Option<Call>
    ensures { unwrap_or result Call.Other ≡ one_number letter n }
{
    Some(match letter {
        b'O' => Call::Open(u8::try_from(n).ok()?),
        b'o' if n <= MOST_BYTES => Call::OpenSized(n),
        b'B' => Call::Begin(n),
        b'A' => Call::Abort(n),
        b'P' => Call::StorePage(n),
        b'M' => Call::Block(n),
        b'V' => Call::Page(n),
        _ => return None,
    })
}

// A letter and two numbers.
#[tactic(auto, unfolding(crate::specs::Replay::two_numbers, crate::specs::Replay::at_most))]
fn two_numbers(letter: u8, a: u64, n: u64) -> Option<Call>
    ensures { unwrap_or result Call.Other ≡ two_numbers letter a n }
{
    Some(match letter {
        b'F' => Call::Format(a, n),
        b'E' => Call::Erase(a, u16::try_from(n).ok()?),
        b'R' => Call::Read(a, u16::try_from(n).ok()?),
        b'C' => Call::Commit(a, n),
        b'Q' => Call::AsOf(u16::try_from(a).ok()?, n),
        _ => return None,
    })
}

// A letter and two words.
#[tactic(auto, unfolding(crate::specs::Replay::two_words))]
fn two_words(line: Line) -> Option<Call>
    ensures { unwrap_or result Call.Other ≡ two_words line.letter line.second (last_word line) }
{
    if line.letter == b'Z' {
        return Some(Call::Poke(line.second, line.last_byte()?));
    }
    two_numbers(line.letter, line.second, line.last_number()?)
}

// A write, behind a number and a record.
fn write_of(line: Line) -> Option<Asked>
    ensures { unwrap_or result (plain Call.Other) ≡ write_by line.third line.second (last_word line).value }
{
    let value = line.last_value()?;
    let record = u16::try_from(line.second).ok()?;
    Some(Asked {
        call: Call::Write(line.third, record),
        value,
    })
}

// A list of changes.
#[tactic(auto, unfolding(crate::specs::Replay::four_numbers, crate::specs::Replay::at_most))]
fn four_numbers(line: Line, bytes: u64) -> Option<Call>
    ensures { unwrap_or result Call.Other ≡ four_numbers line.letter line.fourth line.third line.second bytes }
{
    if line.letter != b'L' || bytes > MOST_BYTES {
        return None;
    }
    let record = u16::try_from(line.fourth).ok()?;
    Some(Call::Changes(record, line.third, line.second, bytes))
}

// A handover.
#[tactic(auto, unfolding(crate::specs::Replay::five_numbers, crate::specs::Replay::at_most))]
fn five_numbers(line: Line, clock: u64) -> Option<Call>
    ensures { unwrap_or result Call.Other ≡ five_numbers line.letter line.fifth line.fourth line.third line.second clock }
{
    if line.letter != b'H' {
        return None;
    }
    Some(Call::Hand(
        u16::try_from(line.fifth).ok()?,
        u8::try_from(line.fourth).ok()?,
        u8::try_from(line.third).ok()?,
        line.second,
        clock,
    ))
}

#[tactic(auto, using(crate::proofs::ReaderLaws::seen), unfolding(crate::specs::Replay::meaning_of, crate::specs::Replay::replay_of))]
fn request(line: Line) -> Option<Asked>
    ensures { unwrap_or result (plain Call.Other) ≡ meaning_of line }
{
    if line.bad || line.letter == 0 {
        return None;
    }
    let call = match line.count {
        0 => wordless(line.letter)?,
        1 => one_number(line.letter, line.last_number()?)?,
        2 => two_words(line)?,
        3 if line.letter == b'W' => return write_of(line),
        3 => return None,
        4 => four_numbers(line, line.last_number()?)?,
        _ => five_numbers(line, line.last_number()?)?,
    };
    Some(plain(call))
}

// What a line asks for that ends here.
pub fn meaning(line: Line) -> Asked
    ensures { result ≡ meaning_of line }
{
    request(line).unwrap_or(plain(Call::Other))
}
