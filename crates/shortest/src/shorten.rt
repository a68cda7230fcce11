// Shortening a script.
ghost use Rattle.std.specs.Prelude.{◌≡◌, ◌<◌, ◌≤◌, [], length, take, is_err, IfOk, OnErr};
ghost use Rattle.script.specs.Words.{lines_of};
ghost use Rattle.shortest.specs.Script.{script_of};
ghost use Rattle.shortest.specs.Prints.{too_long, prints_of};

pub use crate::keep::TooLong;
use crate::{keep, lines, search};

// Puts the lines to be printed for an input into the output; answers how many bytes they are.
pub fn shorten(bytes: &[u8], out: &mut [u8]) -> Result<usize, TooLong>
    requires { length bytes.now < length out.old }
    ensures bound { IfOk result (λ n. n ≤ length out.new) }
    ensures long { is_err result ≡ too_long (script_of (lines_of bytes.now)) }
    ensures out_after { IfOk result (λ n. take n out.new ≡ prints_of bytes.now) }
    ensures nothing { OnErr result (prints_of bytes.now ≡ []) }
{
    let calls = keep::keep(bytes)?;
    let count = calls.iter().filter(|call| call.is_some()).count();
    let Some(m) = count.checked_sub(1) else {
        return Ok(0);
    };
    let flags = search::shortest(m, &calls);
    Ok(lines::put(out, bytes, flags))
}
