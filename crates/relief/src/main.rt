// Program `relief`: frees the log of each room that it reads from standard input, by asking which call comes next.
// What it reads and prints is in docs/RELIEF.md.
#![tactic(auto)]

mod form;
mod free;
mod words;

ghost use Rattle.std.specs.Prelude.{◌≡◌, length};

use std::io::{Print, Read};
use store::State;

// Reads a room, frees its log and writes it; none where the run ends.
fn play(
    input: &mut impl Read,
    output: &impl Print,
    state: &mut State,
    medium: &mut [u8],
    cache: &mut [u8],
    out: &mut [u8],
) -> Option<()>
    requires medium_len { length medium.old ≡ 50688 }
    requires cache_len { length cache.old ≡ 32768 }
    requires out_len { length out.old ≡ 91664 }
{
    let mut head = [0; 4112];
    input.read_exact(&mut head).ok()?;
    let sizes = form::read_sizes(&head)?;
    let mut words = form::read_words(&head);
    let tail = form::read_tail(&head);
    let medium = &mut medium[..sizes.medium];
    input.read_exact(medium).ok()?;
    let cache = &mut cache[..sizes.cache];
    input.read_exact(cache).ok()?;
    let n = free::freed_room(state, &mut words, &tail, medium, cache, out);
    output.write_all(&out[..n]).ok()
}

// The buffers are as long as the largest sizes ask, and as the lines of 70 calls with the room behind them. A proved loop
// has to end: no run has as many rooms as the range.
fn main(rt: HostRuntime) {
    let mut input = rt.stdin();
    let mut state = State::none();
    let mut medium = [0; 50688];
    let mut cache = [0; 32768];
    let mut out = [0; 91664];
    for _ in 0..u64::MAX {
        if play(
            &mut input,
            &rt,
            &mut state,
            &mut medium,
            &mut cache,
            &mut out,
        )
        .is_none()
        {
            return;
        }
    }
}
