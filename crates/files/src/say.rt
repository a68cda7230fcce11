// What the program says beside its answers.
ghost use Rattle.std.specs.Prelude.{◌≡◌, ◌+◌, ◌≤◌, length, take};
ghost use Rattle.files.specs.Line.{complaint};

use script::print;
use std::io::Print;

// Puts the line that says what is wrong with a file into the output.
fn line(out: &mut [u8], name: &[u8], what: &[u8]) -> usize
    requires { length name.now + length what.now + 14 ≤ length out.old }
    ensures upper_bound { result ≤ length out.old }
    ensures out_after { take result out.new ≡ complaint name.now what.now }
{
    let a = print::bytes(out, 0, b"striproom: ");
    let b = print::bytes(out, a, name);
    let c = print::bytes(out, b, b": ");
    let d = print::bytes(out, c, what);
    print::byte(out, d, b'\n')
}

// Says what is wrong with a file, in one line on standard error and by one write, so that lines of two programs do not
// mix. A longer line than the buffer holds is not said. Where standard error takes no line, nobody can be told so.
pub fn complain(err: &impl Print, name: &[u8], what: &[u8]) {
    let mut out = [0u8; 8192];
    if name.len() > 4096 || what.len() > 4000 {
        return;
    }
    let n = line(&mut out, name, what);
    let _ = err.write_all(&out[..n]);
}

// Writes an exit code, in decimal, to a descriptor.
pub fn code(fd: i32, code: u8) {
    io::print_decimal(fd, u64::from(code));
}
