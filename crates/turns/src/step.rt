// One line of a script, whatever it does.
ghost use Rattle.std.specs.Prelude.{◌≡◌, ◌++◌, ◌+◌, ◌≤◌, length, take};
ghost use Rattle.rooms.specs.Room.{plan_of, turn_of};
ghost use Rattle.rooms.specs.Parts.{stage_of, room_of};

use crate::turn;
use answers::text;
use handover::Transfer;
use rooms::look;
use rooms::parts::Standing;
use rooms::plan::Plan;
use script::call::{Asked, Call};
use store::State;

// Plays a line that the room plays, and puts what it prints behind the first n bytes of the output; answers how many
// there are then.
pub fn step(
    asked: Asked,
    plan: Plan,
    standing: &mut Standing,
    state: &mut State,
    medium: &mut [u8],
    cache: &mut [u8],
    buffer: &mut [u8],
    out: &mut [u8],
    n: usize,
) -> usize
    requires medium_len { length medium.old ≡ 50688 }
    requires cache_len { length cache.old ≡ 32768 }
    requires buffer_len { length buffer.old ≡ 40000 }
    requires n_in_bounds { n + 94000 ≤ length out.old }
    requires plan_value { plan ≡ plan_of asked.call }
    requires stage_bound { plan.stage ≤ stage_of standing.old }
    ensures n_bound { result ≤ n + 94000 }
    ensures out_after { take result out.new ≡ take n out.old
        ++ (turn_of asked (room_of standing.old medium.old cache.old state.old)).text }
    ensures room_after { room_of standing.new medium.new cache.new state.new
        ≡ (turn_of asked (room_of standing.old medium.old cache.old state.old)).room }
{
    if plan.looks {
        return look::look(asked, *standing, state, medium, cache, buffer, out, n);
    }
    if let Call::Hand(flight, from, to, began, ended) = asked.call {
        let transfer = Transfer {
            flight,
            from,
            to,
            began,
            ended,
        };
        let handed = turn::hand(transfer, *standing, state, medium, cache);
        return text::put_handed(out, n, handed);
    }
    let answer = turn::turn(asked, standing, state, medium, cache, buffer);
    text::put_answer(out, n, plan.letter, answer, [0; 16])
}
