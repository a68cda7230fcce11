// The lines of a change list.
ghost use Rattle.std.specs.Prelude.{◌≡◌, suc, ◌+◌, ◌-◌, ◌*◌, ◌<◌, ◌≤◌, cond, ◌++◌, length, leb, Some, None};
ghost use Rattle.fields.specs.Part.{splice};
ghost use Rattle.fields.specs.Cells.{flat};
ghost use Rattle.store.specs.Places.{time_under};
ghost use Rattle.store.specs.Chain.{cell_at};
ghost use Rattle.store.specs.Changes.{line_bytes, lines_below};
ghost use Rattle.cached.specs.Room.{Room, Head};
ghost use Rattle.chain.specs.Ranked.{Slots, lines_of};

use crate::ranked::{Dated, Ranked};
use layout::CommitTime;
use store::Place;

// Writes a line: time, kind, zeros, value.
fn put_line(line: &mut [u8], time: CommitTime, kind: u8, value: &[u8])
    requires line_len { length line.old ≡ 32 }
    requires value_len { length value.now ≡ 16 }
    ensures { line.new ≡ line_bytes (record { time = time.0; kind = kind; value = value.now }) }
{
    fields::field::put8(line, 0, time.0);
    line[8] = kind;
    line[9..16].fill(0);
    line[16..32].copy_from_slice(value);
}

// Writes the line of a slot as line i of the list.
fn put_slot(out: &mut [u8], i: usize, cache: &[u8], s: u64, time: CommitTime)
    requires i_in_bounds { 32 * i + 32 ≤ length out.old }
    requires room { Room (length cache.now) (suc s) }
    ensures { out.new ≡ splice out.old (32 * i) (line_bytes (record { time = time.0; kind = (cell_at cache.now s).kind; value = (cell_at cache.now s).value })) }
{
    let slot = cached::slot(cache, s);
    let a = 32 * i;
    put_line(&mut out[a..a + 32], time, slot[2], &slot[16..]);
}

// Writes the lines of ranked versions, from the last to the first.
fn write(cache: &[u8], ranked: &[Dated], out: &mut [u8])
    requires slots { Slots ranked.now (length cache.now) }
    requires in_bounds { 32 * length ranked.now ≤ length out.old }
    ensures { out.new ≡ splice out.old 0 (flat line_bytes (lines_of cache.now ranked.now)) }
{
    for (i, version) in ranked.iter().enumerate() {
        put_slot(out, ranked.len() - 1 - i, cache, version.slot, version.time);
    }
}

// Writes the lines of a record from t1 to t2 and answers how many there are; nothing where they are more than the buffer
// has room for.
pub fn list(
    head: Option<u64>,
    cache: &[u8],
    places: &[Place; 64],
    t1: u64,
    t2: u64,
    buffer: &mut [u8],
) -> Option<u64>
    requires { Head head (length cache.now) }
    ensures result_value { let ls = lines_below cache.now (time_under places.now) head t1 (suc (suc t2)) (suc t2) in result ≡ cond (leb (32 * length ls) (length buffer.old)) (Some (length ls)) None }
    ensures buffer_after { let ls = lines_below cache.now (time_under places.now) head t1 (suc (suc t2)) (suc t2) in buffer.new ≡ cond (leb (32 * length ls) (length buffer.old)) (splice buffer.old 0 (flat line_bytes ls)) buffer.old }
{
    let mut ranked = Ranked::new();
    ranked.gather(head, cache, places, t2);
    ranked.keep_changes(cache, t1);
    let lines = ranked.as_slice();
    if buffer.len() < 32 * lines.len() {
        return None;
    }
    write(cache, lines, buffer);
    Some(lines.len() as u64)
}
