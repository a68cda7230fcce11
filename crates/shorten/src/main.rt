// Program `shorten`: reads a script of `stripbook` from standard input and prints the fewest of its lines that end in
// the same refusal. What it reads and prints is in docs/SHORTEN.md.
#![tactic(auto)]

ghost use Rattle.std.specs.Prelude.{◌≤◌, length};

use shortest::shorten::TooLong;
use std::io::{Eprint, Print, Read};

// Reads until the buffer is full or the input ends; a read that fails counts as its end.
fn read_full(input: &mut impl Read, bytes: &mut [u8]) -> usize
    ensures { result ≤ length bytes.new }
{
    let mut n = 0;
    while n < bytes.len() {
        match input.read(&mut bytes[n..]) {
            Ok(0) | Err(_) => return n,
            Ok(got) => n += got,
        }
    }
    n
}

// One byte more than the longest input is read: a full buffer is an input that is too long. A line without a newline at
// the end of the input is printed with one.
fn main(rt: HostRuntime) {
    let mut bytes = [0; 65536];
    let mut out = [0; 65536];
    let n = read_full(&mut rt.stdin(), &mut bytes);
    if n == bytes.len() {
        let _ = rt.eprintln("shorten: the input has more than 65535 bytes");
        return;
    }
    match shortest::shorten::shorten(&bytes[..n], &mut out) {
        Ok(count) => {
            let _ = rt.write_all(&out[..count]);
        }
        Err(TooLong) => {
            let _ = rt.eprintln("shorten: the script has more than 12 lines");
        }
    }
}
