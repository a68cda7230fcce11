// Program `replay`: reads a script of calls from standard input, repeats the history of a room, and prints what each
// line answers.
#![tactic(auto)]

mod play;

ghost use Rattle.std.specs.Prelude.{◌≡◌, true, false, [], ◌≤◌, ◌<◌, length, take};
ghost use Rattle.script.specs.Run.{stand, play_of, finished};
ghost use Rattle.rooms.specs.Parts.{room_of};
ghost use Rattle.rooms.specs.Steps.{does};

use crate::play::{Played, Run};
use rooms::parts::Standing;
use script::line;
use std::io::{Print, Read};
use store::State;

// Plays bytes and writes out what they print; not all of them where they print much. A write that fails changes
// nothing.
fn play_out(
    output: &impl Print,
    run: &mut Run,
    bytes: &[u8],
    state: &mut State,
    medium: &mut [u8],
    cache: &mut [u8],
    buffer: &mut [u8],
    out: &mut [u8],
) -> Played
    requires medium_len { length medium.old ≡ 50688 }
    requires cache_len { length cache.old ≡ 32768 }
    requires buffer_len { length buffer.old ≡ 40000 }
    requires out_len { length out.old ≡ 200000 }
    requires bytes_nonzero { 0 < length bytes.now }
    ensures taken_nonzero { (0 < result.taken) × (result.taken ≤ length bytes.now) }
    ensures out_after { stand run.new.line (room_of run.new.standing medium.new cache.new state.new) result.on
        (take result.printed out.new)
        ≡ play_of does (stand run.old.line (room_of run.old.standing medium.old cache.old state.old) true [])
        (take result.taken bytes.now) }
{
    let played = play::play(run, state, bytes, medium, cache, buffer, out);
    let _ = output.write_all(&out[..played.printed]);
    played
}

// Plays all the bytes; answers whether the run goes on.
fn play_all(
    output: &impl Print,
    run: &mut Run,
    bytes: &[u8],
    state: &mut State,
    medium: &mut [u8],
    cache: &mut [u8],
    buffer: &mut [u8],
    out: &mut [u8],
) -> bool
    requires medium_len { length medium.old ≡ 50688 }
    requires cache_len { length cache.old ≡ 32768 }
    requires buffer_len { length buffer.old ≡ 40000 }
    requires out_len { length out.old ≡ 200000 }
{
    let mut rest = bytes;
    while !rest.is_empty() {
        let played = play_out(output, run, rest, state, medium, cache, buffer, out);
        if !played.on {
            return false;
        }
        rest = &rest[played.taken..];
    }
    true
}

// The end of the input, which ends the run, and a line that was begun before.
fn finish(
    output: &impl Print,
    run: &mut Run,
    state: &mut State,
    medium: &mut [u8],
    cache: &mut [u8],
    buffer: &mut [u8],
    out: &mut [u8],
) -> Played
    requires medium_len { length medium.old ≡ 50688 }
    requires cache_len { length cache.old ≡ 32768 }
    requires buffer_len { length buffer.old ≡ 40000 }
    requires out_len { length out.old ≡ 200000 }
    ensures on_value { result.on ≡ false }
    ensures out_after { take result.printed out.new
        ≡ finished does (stand run.old.line (room_of run.old.standing medium.old cache.old state.old) true []) }
{
    if run.line.letter == 0 {
        return Played {
            taken: 0,
            printed: 0,
            on: false,
        };
    }
    let last = play_out(output, run, b"\n", state, medium, cache, buffer, out);
    Played { on: false, ..last }
}

// Reads once and plays what came; answers whether the run goes on.
fn read_some(
    input: &mut impl Read,
    output: &impl Print,
    run: &mut Run,
    state: &mut State,
    medium: &mut [u8],
    cache: &mut [u8],
    buffer: &mut [u8],
    out: &mut [u8],
) -> bool
    requires medium_len { length medium.old ≡ 50688 }
    requires cache_len { length cache.old ≡ 32768 }
    requires buffer_len { length buffer.old ≡ 40000 }
    requires out_len { length out.old ≡ 200000 }
{
    let mut bytes = [0; 65536];
    match input.read(&mut bytes) {
        Ok(0) | Err(_) => finish(output, run, state, medium, cache, buffer, out).on,
        Ok(n) => play_all(output, run, &bytes[..n], state, medium, cache, buffer, out),
    }
}

// The buffers are as long as the largest sizes ask, 32 log blocks and 64 pages, and as the longest answer buffer.
fn main(rt: HostRuntime) {
    let mut input = rt.stdin();
    let mut state = State::none();
    let mut medium = [0; 50688];
    let mut cache = [0; 32768];
    let mut buffer = [0; 40000];
    let mut out = [0; 200000];
    let mut run = Run {
        line: line::empty(),
        standing: Standing {
            stage: 1,
            blocks: 0,
            pages: 0,
            bytes: 0,
        },
    };
    // A proved loop has to end: it counts its turns, up to a number that no run reaches.
    for _ in 0..u64::MAX {
        let on = read_some(
            &mut input,
            &rt,
            &mut run,
            &mut state,
            &mut medium,
            &mut cache,
            &mut buffer,
            &mut out,
        );
        if !on {
            return;
        }
    }
}
