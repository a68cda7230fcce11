// Everything between a read and a write: the bytes of a read are taken, the calls of their lines made, and what they
// answer put into the output.
ghost use Rattle.std.specs.Prelude.{◌≡◌, true, [], ◌*◌, ◌≤◌, length, take};
ghost use Rattle.script.specs.Run.{stand, play_of};
ghost use Rattle.book.specs.Steps.{world, does};

use crate::{call, room};
use script::line;
use script::line::Line;
use store::State;

// Where a run stands behind a read: the line begun, whether the run goes on, and how many bytes of the output
// are to be written.
#[derive(Clone, Copy)]
pub struct Run {
    pub line: Line,
    pub on: bool,
    pub printed: usize,
}

// Takes the bytes of a read: at the end of each line its call is made.
pub fn play(
    begun: Line,
    state: &mut State,
    bytes: &[u8],
    medium: &mut [u8],
    cache: &mut [u8],
    out: &mut [u8],
) -> Run
    requires { 44 * length bytes.now ≤ length out.old }
    ensures printed_bound { result.printed ≤ length out.new }
    ensures out_after { stand result.line (world state.new medium.new cache.new)
        result.on (take result.printed out.new)
        ≡ play_of does (stand begun (world state.old medium.old cache.old) true []) bytes.now }
{
    let mut line = begun;
    let mut printed = 0;
    let mut at = 0;
    while at < bytes.len() {
        let taken = line::take(line, bytes, at);
        if !taken.ended {
            return Run {
                line: taken.line,
                on: true,
                printed,
            };
        }
        at = taken.next;
        line = line::empty();
        let Some(call) = call::meaning(taken.line) else {
            return Run {
                line,
                on: false,
                printed,
            };
        };
        let said = room::make(call, state, medium, cache);
        printed = room::put(out, printed, call.letter(), said);
    }
    Run {
        line,
        on: true,
        printed,
    }
}
