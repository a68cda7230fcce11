// Program `striproom`: plays a script from standard input on the medium that a file holds. Each line's change is stored
// in the file before its answer is written out.
#![tactic(auto)]

mod args;
mod play;
mod room;

ghost use Rattle.std.specs.Prelude.{◌≡◌, false, ◌≤◌, length, IfOk, IfSome};
ghost use Rattle.striproom.specs.File.{first_of};

use crate::play::Run;
use files::Failure;
use rooms::parts::Standing;
use std::env::{Env, FillError};
use std::fs::File;
use std::io::{Print, Read};
use std::rt::Files;
use store::State;

// Plays all the bytes.
fn play_all(
    rt: &(impl Files<File = File> + Print),
    mut run: Run,
    name: &[u8],
    to: Option<u8>,
    bytes: &[u8],
    state: &mut State,
    medium: &mut [u8],
    cache: &mut [u8],
    buffer: &mut [u8],
    out: &mut [u8],
) -> Result<Run, Failure>
    requires medium_len { length medium.old ≡ 50688 }
    requires cache_len { length cache.old ≡ 32768 }
    requires buffer_len { length buffer.old ≡ 40000 }
    requires out_len { length out.old ≡ 94000 }
{
    let mut rest = bytes;
    while run.on && !rest.is_empty() {
        run = play::play(rt, run, name, to, rest, state, medium, cache, buffer, out)?;
        rest = &rest[run.next..];
    }
    Ok(run)
}

// The end of the input, which ends a line that was begun.
fn finish(
    rt: &(impl Files<File = File> + Print),
    run: Run,
    name: &[u8],
    to: Option<u8>,
    state: &mut State,
    medium: &mut [u8],
    cache: &mut [u8],
    buffer: &mut [u8],
    out: &mut [u8],
) -> Result<Run, Failure>
    requires medium_len { length medium.old ≡ 50688 }
    requires cache_len { length cache.old ≡ 32768 }
    requires buffer_len { length buffer.old ≡ 40000 }
    requires out_len { length out.old ≡ 94000 }
    ensures { IfOk result (λ last. last.on ≡ false) }
{
    if run.line.letter == 0 {
        return Ok(Run { on: false, ..run });
    }
    let last = play::play(rt, run, name, to, b"\n", state, medium, cache, buffer, out)?;
    Ok(Run { on: false, ..last })
}

// Reads once and plays what came.
fn read_some(
    input: &mut impl Read,
    rt: &(impl Files<File = File> + Print),
    run: Run,
    name: &[u8],
    to: Option<u8>,
    state: &mut State,
    medium: &mut [u8],
    cache: &mut [u8],
    buffer: &mut [u8],
    out: &mut [u8],
) -> Result<Run, Failure>
    requires medium_len { length medium.old ≡ 50688 }
    requires cache_len { length cache.old ≡ 32768 }
    requires buffer_len { length buffer.old ≡ 40000 }
    requires out_len { length out.old ≡ 94000 }
{
    let mut bytes = [0; 65536];
    match input.read(&mut bytes) {
        Ok(0) | Err(_) => finish(rt, run, name, to, state, medium, cache, buffer, out),
        Ok(n) => play_all(
            rt,
            run,
            name,
            to,
            &bytes[..n],
            state,
            medium,
            cache,
            buffer,
            out,
        ),
    }
}

// How the room stands before the first line: without a medium where the file is missing.
fn first(bytes: Option<usize>, medium: &[u8]) -> Standing
    requires { IfSome bytes (λ n. n ≤ length medium.now) }
    ensures { result ≡ first_of bytes medium.now }
{
    match bytes {
        Some(n) => disk::named::named(medium, n),
        None => Standing {
            stage: 1,
            blocks: 0,
            pages: 0,
            bytes: 0,
        },
    }
}

// Plays the input on the file. The buffers are as long as the largest sizes ask, 32 log blocks and 64 pages, and as the
// longest answer buffer.
fn run(
    input: &mut impl Read,
    rt: &(impl Files<File = File> + Print),
    name: &[u8],
    to: Option<u8>,
) -> Result<(), Failure> {
    let mut state = State::none();
    let mut medium = [0; 50688];
    let mut cache = [0; 32768];
    let mut buffer = [0; 40000];
    let mut out = [0; 94000];
    let (file, bytes) = room::open(rt, name, to, &mut medium)?.unzip();
    let mut run = Run::new(first(bytes, &medium), file);
    // A proved loop has to end: no input has so many reads.
    for _ in 0..u64::MAX {
        if !run.on {
            break;
        }
        run = read_some(
            input,
            rt,
            run,
            name,
            to,
            &mut state,
            &mut medium,
            &mut cache,
            &mut buffer,
            &mut out,
        )?;
    }
    Ok(())
}

// Says what went wrong, and writes the exit code where it is asked for.
fn report(err: &impl Print, name: &[u8], to: Option<u8>, failure: Failure) {
    if failure == Failure::Usage {
        args::usage(err);
    } else {
        failure.say(err, name);
    }
    if let Some(fd) = to {
        files::code(i32::from(fd), failure.code());
    }
}

fn main(rt: HostRuntime) {
    let err = rt.stderr();
    let count = args::count(&rt);
    let code_to = args::code_to(&rt, count);
    let to = code_to.unwrap_or(None);
    let mut name = [0; 4096];
    let n = match rt.arg(1, &mut name) {
        Ok(n) => n,
        Err(FillError::NotPresent) => 0,
        Err(FillError::TooLong) => {
            report(&err, &name, to, Failure::Inaccessible);
            return;
        }
    };
    let name = &name[..n];
    if !args::is_right(count, n, code_to.is_ok()) {
        report(&err, name, to, Failure::Usage);
        return;
    }
    if let Err(failure) = run(&mut rt.stdin(), &rt, name, to) {
        report(&err, name, to, failure);
    }
}
