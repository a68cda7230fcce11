// One line of a script, and which bytes of the medium it changed.
ghost use Rattle.std.specs.Prelude.{◌≡◌, false, not, ◌++◌, ◌+◌, ◌≤◌, length, take};
ghost use Rattle.fields.specs.Part.{part};
ghost use Rattle.fields.specs.Equal.{eq_list};
ghost use Rattle.rooms.specs.Room.{medium_in, plan_of, turn_of};
ghost use Rattle.rooms.specs.Parts.{stage_of, room_of};
ghost use Rattle.disk.specs.Stored.{is_format, stored, Whole};

use crate::block;
use rooms::parts::Standing;
use rooms::plan::Plan;
use script::call::Asked;
use store::State;

// How the room stands then, how many bytes of the output are taken, and whether bytes of the medium changed: those from
// `at` on, `len` of them, and no others.
#[derive(Clone, Copy)]
pub struct Played {
    pub standing: Standing,
    pub n: usize,
    pub changed: bool,
    pub at: usize,
    pub len: usize,
}

// Plays a line as a room does, and says which bytes of the medium it changed. A formatting makes them all anew, and of
// it nothing is said.
pub fn play(
    asked: Asked,
    p: Plan,
    t: Standing,
    state: &mut State,
    medium: &mut [u8],
    cache: &mut [u8],
    buffer: &mut [u8],
    out: &mut [u8],
    n: usize,
) -> Played
    requires medium_len { length medium.old ≡ 50688 }
    requires cache_len { length cache.old ≡ 32768 }
    requires buffer_len { length buffer.old ≡ 40000 }
    requires n_in_bounds { n + 94000 ≤ length out.old }
    requires p_value { p ≡ plan_of asked.call }
    requires stage_bound { p.stage ≤ stage_of t }
    ensures n_bound { result.n ≤ n + 94000 }
    ensures out_after { take result.n out.new ≡ take n out.old
        ++ (turn_of asked (room_of t medium.old cache.old state.old)).text }
    ensures tail_after { room_of result.standing medium.new cache.new state.new
        ≡ (turn_of asked (room_of t medium.old cache.old state.old)).room }
    ensures len_bound { result.at + result.len ≤ 50688 }
    ensures whole { is_format asked.call ≡ false
        → Whole (medium_in (room_of t medium.old cache.old state.old)) result.at result.len }
    ensures changed_value { is_format asked.call ≡ false → result.changed
        ≡ not (eq_list (medium_in (room_of t medium.old cache.old state.old))
        (medium_in (room_of result.standing medium.new cache.new state.new))) }
    ensures len_after { is_format asked.call ≡ false
        → stored result.changed (medium_in (room_of t medium.old cache.old state.old)) result.at
        (part medium.new result.at result.len)
        ≡ medium_in (room_of result.standing medium.new cache.new state.new) }
{
    let call = asked.call;
    let e = block::extent_of(block::of(call, state), t.medium_part());
    let mut before = [0u8; 512];
    block::keep(e, medium, &mut before);
    let mut standing = t;
    let n = turns::step::step(
        asked,
        p,
        &mut standing,
        state,
        medium,
        cache,
        buffer,
        out,
        n,
    );
    Played {
        standing,
        n,
        changed: block::differ(e, medium, &before),
        at: e.at,
        len: e.len,
    }
}
