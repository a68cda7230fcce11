// The arguments: a file, and perhaps the descriptor to which the exit code is written.
ghost use Rattle.std.specs.Prelude.{◌≡◌, ◌<◌, Ok, None};
ghost use Rattle.striproom.specs.Arguments.{descriptor_of, is_right};

use files::Failure;
use std::env::{Env, FillError};
use std::io::Print;

// The descriptor that a word names, from 3 to 99.
fn descriptor(word: &[u8]) -> Option<u8>
    ensures { result ≡ descriptor_of word.now }
{
    match *word {
        [a @ b'3'..=b'9'] => Some(a - b'0'),
        [a @ b'1'..=b'9', b @ b'0'..=b'9'] => Some(10 * (a - b'0') + (b - b'0')),
        _ => None,
    }
}

// Is there an argument i? The program's own name is argument 0.
fn is_given(rt: &impl Env, i: usize) -> bool {
    let mut byte = [0u8; 1];
    match rt.arg(i, &mut byte) {
        Ok(_) | Err(FillError::TooLong) => true,
        Err(FillError::NotPresent) => false,
    }
}

// How many arguments there are, the program's own name among them; four stands for more, too.
pub fn count(rt: &impl Env) -> usize {
    for n in 0..4usize {
        if !is_given(rt, n) {
            return n;
        }
    }
    4
}

// Where the exit code goes, if anywhere. An error where the second argument is no descriptor.
pub fn code_to(rt: &impl Env, count: usize) -> Result<Option<u8>, Failure>
    ensures { count < 3 → result ≡ Ok None }
{
    if count < 3 {
        return Ok(None);
    }
    // A word of more than two bytes is no descriptor, so a longer one need not be read.
    let mut word = [0; 2];
    let n = rt.arg(2, &mut word).map_err(|_| Failure::Usage)?;
    descriptor(&word[..n]).map(Some).ok_or(Failure::Usage)
}

// Is there a file with a name, and at most a descriptor beside it?
pub fn is_right(count: usize, n: usize, known: bool) -> bool
    ensures { result ≡ is_right count n known }
{
    (2..=3).contains(&count) && n != 0 && known
}

// How to use the program, said on standard error.
pub fn usage(err: &impl Print) {
    let _ = err.println("usage: striproom FILE");
    let _ = err.println(
        "Plays a script from standard input on the medium in FILE, and prints each line's answer.",
    );
    let _ = err.println("  F 4 2      makes FILE, or formats it: 4 log blocks, 2 pages");
    let _ = err.println("  O 0        opens the medium");
    let _ = err.println("  B 1        begins transaction 1 at clock 1");
    let _ = err.println("  W 1 7 00112233445566778899aabbccddeeff   writes record 7 in it");
    let _ = err.println("  C 1 2      commits it at clock 2");
    let _ = err.println("  Q 7 2      reads record 7 as of time 2");
    let _ = err.println("All lines: docs/REPLAY.md. Exit codes: docs/STRIPROOM.md.");
}
