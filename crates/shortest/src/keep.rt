// The script of an input, as the calls that its lines ask for.
ghost use Rattle.std.specs.Prelude.{◌≡◌, IfOk, is_err};
ghost use Rattle.script.specs.Words.{lines_of};
ghost use Rattle.shortest.specs.Script.{script_of};
ghost use Rattle.shortest.specs.Prints.{too_long};
ghost use Rattle.shortest.specs.Kept.{places_of};

use book::call;
use book::call::Call;
use script::line;

// A script has more than twelve lines.
#[derive(Clone, Copy)]
pub struct TooLong;

// The calls of the lines up to the first of another form, and nothing behind them.
pub fn keep(bytes: &[u8]) -> Result<[Option<Call>; 12], TooLong>
    ensures kept { IfOk result (λ calls. calls ≡ places_of (script_of (lines_of bytes.now))) }
    ensures long { is_err result ≡ too_long (script_of (lines_of bytes.now)) }
{
    let mut calls = [None; 12];
    let mut n = 0;
    let mut at = 0;
    while at < bytes.len() {
        let taken = line::take(line::empty(), bytes, at);
        let Some(call) = call::meaning(taken.line) else {
            return Ok(calls);
        };
        if n == 12 {
            return Err(TooLong);
        }
        calls[n] = Some(call);
        n += 1;
        at = taken.next;
    }
    Ok(calls)
}
