// The lines that leave the room as it is.
ghost use Rattle.std.specs.Prelude.{◌≡◌, true, ℕ, ◌+◌, ◌≤◌, length, take, replicate};
ghost use Rattle.store.specs.Changes.{changes_of};
ghost use Rattle.rooms.specs.Room.{ready, plan_of, called, turn_of};
ghost use Rattle.rooms.specs.Parts.{stage_of, room_of, Prints};

use crate::parts::Standing;
use answers::text;
use script::call::{Asked, Call};
use store::State;

// `L`, into an answer buffer.
fn list(
    state: &State,
    medium: &[u8],
    cache: &[u8],
    key: u16,
    t1: u64,
    t2: u64,
    buffer: &mut [u8],
    out: &mut [u8],
    n: usize,
) -> usize
    requires buffer_len_bound { length buffer.old ≤ 40000 }
    requires n_in_bounds { n + 94000 ≤ length out.old }
    ensures upper_bound { result ≤ n + 94000 }
    ensures by_index { (l d : ℕ) → Prints (take n out.old) (take result out.new)
        (ready l d medium.now cache.now state.now)
        (called 76 l d
        (changes_of state.now medium.now cache.now (replicate (length buffer.old) 170) key t1 t2)) }
{
    buffer.fill(170);
    let answer = reads::changes::changes(state, medium, cache, key, t1, t2, buffer);
    let n = text::put_answer(out, n, b'L', answer, [0; 16]);
    text::put_list(out, n, answer, buffer)
}

// Plays a line that looks: puts what it prints behind the first n bytes of the output.
pub fn look(
    asked: Asked,
    standing: Standing,
    state: &State,
    medium: &[u8],
    cache: &[u8],
    buffer: &mut [u8],
    out: &mut [u8],
    n: usize,
) -> usize
    requires medium_len { length medium.now ≡ 50688 }
    requires cache_len { length cache.now ≡ 32768 }
    requires buffer_len { length buffer.old ≡ 40000 }
    requires n_in_bounds { n + 94000 ≤ length out.old }
    requires call_value { (plan_of asked.call).looks ≡ true }
    requires call_bound { (plan_of asked.call).stage ≤ stage_of standing }
    ensures upper_bound { result ≤ n + 94000 }
    ensures prints { Prints (take n out.old) (take result out.new)
        (room_of standing medium.now cache.now state.now)
        (turn_of asked (room_of standing medium.now cache.now state.now)) }
{
    let medium = &medium[..standing.medium_part()];
    let cache = &cache[..standing.cache_part()];
    match asked.call {
        Call::Read(number, key) => {
            let reading = reads::current_read::current_read(state, medium, cache, number, key);
            text::put_reading(out, n, b'R', reading)
        }
        Call::AsOf(key, time) => {
            let reading = reads::as_of::as_of(state, medium, cache, key, time);
            text::put_reading(out, n, b'Q', reading)
        }
        Call::Changes(key, t1, t2, bytes) => {
            let buffer = &mut buffer[..bytes as usize];
            list(state, medium, cache, key, t1, t2, buffer, out, n)
        }
        Call::Block(block) => text::put_shown(out, n, b'M', medium, block),
        Call::Page(page) => text::put_shown(out, n, b'V', cache, page),
        _ => unreachable!(),
    }
}
