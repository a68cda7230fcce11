// The room: makes the call of a line, and prints the line's letter, 0 or the refusal, and the result.
ghost use Rattle.std.specs.Prelude.{◌≡◌, ◌++◌, ◌+◌, ◌≤◌, length, take, Ok};
ghost use Rattle.fields.specs.Block.{zeros};
ghost use Rattle.store.specs.Answer.{leaves};
ghost use Rattle.store.specs.CurrentRead.{reads};
ghost use Rattle.store.specs.Open.{open_of};
ghost use Rattle.book.specs.Room.{result_of, outcome_of, query_of, said_by, said_of, said_number, said_result, line_text, result_text};
ghost use Rattle.book.specs.Steps.{world, left_by};

use crate::call::Call;
use script::print;
use store::{Answer, Refusal, State};

// The result of an answer, if it has one; that of a strip is its first byte.
#[tactic(auto, unfolding(crate::specs::Room::result_of))]
fn result_in(answer: Answer, byte: u8) -> Option<u64>
    ensures { result ≡ result_of (Ok answer) byte }
{
    match answer {
        Answer::Begun(number) => Some(number.0),
        Answer::Written(n) | Answer::Listed(n) => Some(n),
        Answer::Committed(time) | Answer::Opened(time) => Some(time.0),
        Answer::Present => Some(u64::from(byte)),
        Answer::Done | Answer::Missing | Answer::Erased => None,
    }
}

// A power cut, and opening again: state and cache are lost.
fn cut(state: &mut State, medium: &[u8], cache: &mut [u8]) -> Result<Answer, Refusal>
    ensures { leaves result state.new medium.now cache.new ≡ open_of medium.now (zeros (length cache.old)) 4 2 }
{
    cache.fill(0);
    media::open::open(medium, cache, state, 4, 2)
}

// Makes a query, which leaves all as it is: its answer, and the strip beside it; zeros where there is none.
#[tactic(auto, unfolding(crate::specs::Room::query_of, crate::specs::Room::outcome_of))]
pub fn query(
    call: Call,
    state: &State,
    medium: &[u8],
    cache: &[u8],
) -> (Result<Answer, Refusal>, [u8; 16])
    ensures { reads result.0 result.1 state.now medium.now cache.now ≡ query_of call state.now medium.now cache.now }
{
    match call {
        Call::Query(key, time) => match reads::as_of::as_of(state, medium, cache, key, time) {
            Ok(reading) => (Ok(reading.answer()), reading.value()),
            Err(refusal) => (Err(refusal), [0; 16]),
        },
        Call::Begin(_) | Call::Write(_, _, _) | Call::Commit(_, _) | Call::Cut => {
            (Ok(Answer::Done), [0; 16])
        }
    }
}

// Makes the call of a line: its answer, and beside it the strip that a query reads; zeros where there is none.
#[tactic(auto, unfolding(crate::specs::Room::query_of, crate::specs::Room::outcome_of))]
pub fn outcome(
    call: Call,
    state: &mut State,
    medium: &mut [u8],
    cache: &mut [u8],
) -> (Result<Answer, Refusal>, [u8; 16])
    ensures { reads result.0 result.1 state.new medium.new cache.new
        ≡ outcome_of call state.old medium.old cache.old }
{
    let answer = match call {
        Call::Begin(clock) => transactions::begin::begin(state, medium, cache, clock),
        Call::Write(number, key, byte) => {
            writes::write::write(state, medium, cache, number, key, [byte; 16])
        }
        Call::Commit(number, clock) => {
            transactions::commit::commit(state, medium, cache, number, clock)
        }
        Call::Query(_, _) => return query(call, state, medium, cache),
        Call::Cut => cut(state, medium, cache),
    };
    (answer, [0; 16])
}

// What an answer shows: its result, if it has one, or its refusal; of a strip its first byte.
pub fn show(answer: Result<Answer, Refusal>, byte: u8) -> Result<Option<u64>, Refusal>
    ensures { result ≡ said_by answer byte }
{
    Ok(result_in(answer?, byte))
}

// Makes the call of a line: what it shows.
#[tactic(auto, unfolding(crate::specs::Room::said_of))]
pub fn make(
    call: Call,
    state: &mut State,
    medium: &mut [u8],
    cache: &mut [u8],
) -> Result<Option<u64>, Refusal>
    ensures left { world state.new medium.new cache.new ≡ left_by (outcome_of call state.old medium.old cache.old) }
    ensures said { result ≡ said_of (outcome_of call state.old medium.old cache.old) }
{
    let (answer, value) = outcome(call, state, medium, cache);
    show(answer, value[0])
}

// 0, or the number of the refusal.
pub fn number(said: Result<Option<u64>, Refusal>) -> u64
    ensures { result ≡ said_number said }
{
    match said {
        Ok(_) => 0,
        Err(refusal) => print::number_of(refusal),
    }
}

// The result, or a dash for none.
#[tactic(auto, unfolding(crate::specs::Room::result_text))]
fn put_result(out: &mut [u8], n: usize, said: Result<Option<u64>, Refusal>) -> usize
    requires { n + 20 ≤ length out.old }
    ensures upper_bound { result ≤ n + 20 }
    ensures out_after { take result out.new ≡ take n out.old ++ result_text (said_result said) }
{
    match said {
        Ok(Some(number)) => print::number(out, n, number),
        Ok(None) | Err(_) => print::byte(out, n, b'-'),
    }
}

// Puts the line of a call behind the first n bytes of the output; answers how many there are then.
pub fn put(out: &mut [u8], n: usize, letter: u8, said: Result<Option<u64>, Refusal>) -> usize
    requires { n + 44 ≤ length out.old }
    ensures upper_bound { result ≤ n + 44 }
    ensures out_after { take result out.new ≡ take n out.old ++ line_text letter (said_number said) (said_result said) }
{
    let n = print::byte(out, n, letter);
    let n = print::byte(out, n, b' ');
    let n = print::number(out, n, number(said));
    let n = print::byte(out, n, b' ');
    let n = put_result(out, n, said);
    print::byte(out, n, b'\n')
}
