// Frees the log of a room: asks which call comes next, and makes it.
#![tactic(auto, using(std::proofs::Common::append_assoc), unfolding(crate::specs::Free::made_of, crate::specs::Free::line_text, crate::specs::Free::page_text, crate::specs::Free::call_text, crate::specs::Free::end_text))]

ghost use Rattle.std.specs.Prelude.{◌≡◌, ◌++◌, ◌+◌, ◌≤◌, length, take, Some};
ghost use Rattle.store.specs.Answer.{leaves, answer_number};
ghost use Rattle.store.specs.Relief.{relief_of};
ghost use Rattle.relief.specs.Free.{made_of, line_text, page_text, call_text, end_text, freed, freed_from, LeftAs};
ghost use Rattle.relief.specs.Form.{room_bytes};
ghost use Rattle.relief.specs.Words.{state_of};

use crate::{form, words};
use answers::text;
use script::print;
use store::{Answer, Refusal, Relief, State};

// How many calls are made at most.
const CALLS: usize = 70;

// Makes the call that is named.
fn make(
    next: Relief,
    state: &mut State,
    medium: &mut [u8],
    cache: &mut [u8],
) -> Result<Answer, Refusal>
    ensures { leaves result state.new medium.new cache.new ≡ made_of next state.old medium.old cache.old }
{
    match next {
        Relief::StoreLog => stores::store_log::store_log(state, medium, cache),
        Relief::StorePage(page) => stores::store_page::store_page(state, medium, cache, page),
        Relief::Checkpoint => stores::checkpoint::checkpoint(state, medium, cache),
    }
}

// A letter and a number, put behind the first n bytes of the output.
fn put_line(out: &mut [u8], n: usize, letter: u8, number: u64) -> usize
    requires { n + 44 ≤ length out.old }
    ensures upper_bound { result ≤ n + 44 }
    ensures out_after { take result out.new ≡ take n out.old ++ line_text letter number }
{
    let n = print::bytes(out, n, &[letter, b' ']);
    let n = print::number(out, n, number);
    print::byte(out, n, b'\n')
}

// The line of a page that was stored.
fn put_page(out: &mut [u8], n: usize, page: u64, number: u64) -> usize
    requires { n + 44 ≤ length out.old }
    ensures upper_bound { result ≤ n + 44 }
    ensures out_after { take result out.new ≡ take n out.old ++ page_text page number }
{
    let n = print::bytes(out, n, b"P ");
    let n = print::number(out, n, page);
    let n = print::byte(out, n, b' ');
    let n = print::number(out, n, number);
    print::byte(out, n, b'\n')
}

// The line of the call that was made.
fn put_call(out: &mut [u8], n: usize, call: Relief, answer: Result<Answer, Refusal>) -> usize
    requires { n + 44 ≤ length out.old }
    ensures upper_bound { result ≤ n + 44 }
    ensures out_after { take result out.new ≡ take n out.old ++ call_text call (answer_number answer) }
{
    let number = text::refusal(answer);
    match call {
        Relief::StoreLog => put_line(out, n, b'S', number),
        Relief::StorePage(page) => put_page(out, n, page, number),
        Relief::Checkpoint => put_line(out, n, b'K', number),
    }
}

// The last line: whether anything is left.
fn put_end(out: &mut [u8], n: usize, next: Option<Relief>) -> usize
    requires { n + 2 ≤ length out.old }
    ensures value { result ≡ n + 2 }
    ensures out_after { take result out.new ≡ take n out.old ++ end_text next }
{
    print::bytes(out, n, if next.is_some() { b"M\n" } else { b"N\n" })
}

// Makes the calls that are named, from the first on, and prints their lines from the front of the output on. The words of the
// phase follow at each call, since they keep of a checkpoint that ended what the state does not.
fn make_calls(
    first: Relief,
    words: &mut [u64; 448],
    state: &mut State,
    medium: &mut [u8],
    cache: &mut [u8],
    out: &mut [u8],
) -> usize
    requires asked { Some first ≡ relief_of state.old medium.old cache.old }
    requires out_len { 4096 ≤ length out.old }
    ensures upper_bound { result ≤ 4096 }
    ensures value { freed (take result out.new) state.new medium.new cache.new ≡ freed_from 70 state.old medium.old cache.old }
{
    let mut n = 0;
    let mut next = Some(first);
    for _ in 0..CALLS {
        let Some(call) = next else {
            return put_end(out, n, None);
        };
        let answer = make(call, state, medium, cache);
        words::lay_phase(words, state.phase);
        n = put_call(out, n, call, answer);
        next = stores::relief::relief(state, medium, cache);
    }
    put_end(out, n, next)
}

// Frees the log of the room that words and tail hold. Its places are read only where its numbers fit, since no call is left
// otherwise, and the state is laid back only after a call: before one the words hold it as they are.
fn free(
    state: &mut State,
    words: &mut [u64; 448],
    tail: &[u8; 512],
    medium: &mut [u8],
    cache: &mut [u8],
    out: &mut [u8],
) -> usize
    requires { 4096 ≤ length out.old }
    ensures upper_bound { result ≤ 4096 }
    ensures value { freed (take result out.new) (state_of words.new tail.now) medium.new cache.new ≡ freed_from 70 (state_of words.old tail.now) medium.old cache.old }
{
    words::read_numbers(state, words, tail);
    if !memory::fit::is_fit(state, medium.len(), cache.len()) {
        return put_end(out, 0, None);
    }
    words::read_places(&mut state.places, words);
    let Some(first) = stores::relief::relief(state, medium, cache) else {
        return put_end(out, 0, None);
    };
    let n = make_calls(first, words, state, medium, cache, out);
    words::lay(words, state);
    n
}

// Frees the log of a room and prints the room behind the lines of its calls. The state lent is any: the room's is read into it.
pub fn freed_room(
    state: &mut State,
    words: &mut [u64; 448],
    tail: &[u8; 512],
    medium: &mut [u8],
    cache: &mut [u8],
    out: &mut [u8],
) -> usize
    requires medium_len_bound { length medium.old ≤ 50688 }
    requires cache_len_bound { length cache.old ≤ 32768 }
    requires out_len { length out.old ≡ 91664 }
    ensures upper_bound { result ≤ 91664 }
    ensures left_as { LeftAs (freed_from 70 (state_of words.old tail.now) medium.old cache.old) (state_of words.new tail.now) medium.new cache.new }
    ensures out_after { take result out.new ≡ (freed_from 70 (state_of words.old tail.now) medium.old cache.old).text ++ room_bytes words.new tail.now medium.new cache.new }
{
    let n = free(state, words, tail, medium, cache, out);
    form::put_room(out, n, words, tail, medium, cache)
}
