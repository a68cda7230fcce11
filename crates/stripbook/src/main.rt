// Program `stripbook`: reads a script of calls from standard input and prints what each answers.
#![tactic(auto)]

ghost use Rattle.std.specs.Prelude.{◌≡◌, true, false, [], ◌*◌, ◌≤◌, length, take};
ghost use Rattle.script.specs.Run.{stand, play_of, finished};
ghost use Rattle.book.specs.Steps.{world, does};

use book::play;
use book::play::Run;
use script::line;
use std::io::{Print, Read};
use store::State;

// Plays the bytes and writes out what they print.
fn play_out(
    output: &impl Print,
    run: Run,
    bytes: &[u8],
    state: &mut State,
    medium: &mut [u8],
    cache: &mut [u8],
    out: &mut [u8],
) -> Run
    requires { 44 * length bytes.now ≤ length out.old }
    ensures { stand result.line (world state.new medium.new cache.new) result.on (take result.printed out.new) ≡ play_of does (stand run.line (world state.old medium.old cache.old) true []) bytes.now }
{
    let next = play::play(run.line, state, bytes, medium, cache, out);
    let _ = output.write_all(&out[..next.printed]);
    next
}

// The end of the input, which ends a line that was begun.
fn finish(
    output: &impl Print,
    run: Run,
    state: &mut State,
    medium: &mut [u8],
    cache: &mut [u8],
    out: &mut [u8],
) -> Run
    requires { length out.old ≡ 180224 }
    ensures on_value { result.on ≡ false }
    ensures out_after { take result.printed out.new ≡ finished does (stand run.line (world state.old medium.old cache.old) true []) }
{
    if run.line.letter == 0 {
        return Run {
            on: false,
            printed: 0,
            ..run
        };
    }
    let last = play_out(output, run, b"\n", state, medium, cache, out);
    Run { on: false, ..last }
}

// Reads once and takes what came.
fn read_some(
    input: &mut impl Read,
    output: &impl Print,
    run: Run,
    state: &mut State,
    medium: &mut [u8],
    cache: &mut [u8],
    out: &mut [u8],
) -> Run
    requires { length out.old ≡ 180224 }
{
    let mut bytes = [0; 4096];
    match input.read(&mut bytes) {
        Ok(0) | Err(_) => finish(output, run, state, medium, cache, out),
        Ok(n) => play_out(output, run, &bytes[..n], state, medium, cache, out),
    }
}

// 4 log blocks and 2 pages: a medium of 9 blocks and a cache of 2. A byte of input prints at most 44.
fn main(rt: HostRuntime) {
    let mut input = rt.stdin();
    let mut state = State::none();
    let mut medium = [0; 4608];
    let mut cache = [0; 1024];
    let mut out = [0; 180224];
    let _ = media::format::format(&mut medium, 4, 2);
    let _ = media::open::open(&medium, &mut cache, &mut state, 4, 2);
    let mut run = Run {
        line: line::empty(),
        on: true,
        printed: 0,
    };
    // A proved loop has to end: no input takes that many reads.
    for _ in 0..u64::MAX {
        if !run.on {
            return;
        }
        run = read_some(
            &mut input,
            &rt,
            run,
            &mut state,
            &mut medium,
            &mut cache,
            &mut out,
        );
    }
}
