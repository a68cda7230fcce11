// One line of the script: played, stored in the file, and only then answered.
ghost use Rattle.std.specs.Prelude.{◌≡◌, true, false, Ok, Err, [], ◌+◌, ◌≤◌, ◌<◌, length, take, IfOk};
ghost use Rattle.std.specs.Result.{result_and};
ghost use Rattle.script.specs.Reader.{no_line};
ghost use Rattle.script.specs.Run.{stand, play_of};
ghost use Rattle.rooms.specs.Room.{plan_of, turn_of};
ghost use Rattle.rooms.specs.Parts.{stage_of, room_of};
ghost use Rattle.rooms.specs.Steps.{does};
ghost use Rattle.files.specs.Codes.{unplayed_of};
ghost use Rattle.disk.specs.Stored.{is_format};
ghost use Rattle.striproom.specs.File.{Apart};
ghost use Rattle.striproom.specs.Play.{Answered, Leads};

use crate::room;
use disk::step;
use disk::step::Played;
use files::{Failure, folder};
use rooms::parts::Standing;
use rooms::plan;
use rooms::plan::Plan;
use script::call::{Asked, Call};
use script::line::Line;
use script::{call, line};
use std::fs::File;
use std::io::Print;
use std::rt::Files;
use store::State;

// Where a run stands: the line begun, the room, the file (none: it is missing), whether the run goes on, and how many
// bytes were taken.
#[derive(Drop)]
pub struct Run {
    pub line: Line,
    pub standing: Standing,
    pub file: Option<File>,
    pub on: bool,
    pub next: usize,
}

impl Run {
    // The start of a run.
    pub fn new(standing: Standing, file: Option<File>) -> Run
        ensures { result ≡ record { line = no_line; standing = standing; file = file; on = true; next = 0 } }
    {
        Run {
            line: line::empty(),
            standing,
            file,
            on: true,
            next: 0,
        }
    }
}

// Stores the bytes that a line changed, if any did. Nothing is written where there is no file.
fn keep_part(file: &Option<File>, medium: &[u8], played: Played) -> Result<(), Failure>
    requires medium_len { length medium.now ≡ 50688 }
    requires len_bound { played.at + played.len ≤ 50688 }
    ensures { played.changed ≡ false → result ≡ Ok tt }
{
    if !played.changed {
        return Ok(());
    }
    let Some(file) = file else {
        return Err(Failure::Unwritten);
    };
    let part = &medium[played.at..played.at + played.len];
    Ok(files::store(file, part, played.at as u64)?)
}

// Stores a formatted medium, and before it the file's name in its folder: else a power cut could take a new file whole.
// A refused formatting leaves the file as it is; without a file it is an error.
fn keep_whole(
    rt: &impl Files<File = File>,
    name: &[u8],
    to: Option<u8>,
    file: Option<File>,
    t: Standing,
    medium: &[u8],
) -> Result<Option<File>, Failure>
    requires { length medium.now ≡ 50688 }
    ensures value { t.stage < 2 → result ≡ result_and (unplayed_of file) (Ok file) }
    ensures apart { Apart to file → IfOk result (Apart to) }
{
    if t.stage < 2 {
        files::unplayed(&file)?;
        return Ok(file);
    }
    let file = room::have(rt, name, to, file)?;
    folder::sync(rt, name)?;
    files::make(&file, &medium[..t.medium_part()])?;
    Ok(Some(file))
}

// Stores what a line left.
#[tactic(auto, unfolding(disk::specs::Stored::is_format))]
fn keep(
    rt: &impl Files<File = File>,
    call: Call,
    played: Played,
    name: &[u8],
    to: Option<u8>,
    file: Option<File>,
    medium: &[u8],
) -> Result<Option<File>, Failure>
    requires medium_len { length medium.now ≡ 50688 }
    requires len_bound { played.at + played.len ≤ 50688 }
    ensures value { is_format call ≡ false → played.changed ≡ false → result ≡ Ok file }
    ensures apart { Apart to file → IfOk result (Apart to) }
{
    if let Call::Format(_, _) = call {
        return keep_whole(rt, name, to, file, played.standing, medium);
    }
    keep_part(&file, medium, played)?;
    Ok(file)
}

// Plays a line that the room plays. Its answer is written out where all that it changed is stored, and the run ends
// where either fails.
fn turn(
    rt: &(impl Files<File = File> + Print),
    run: Run,
    asked: Asked,
    p: Plan,
    name: &[u8],
    to: Option<u8>,
    state: &mut State,
    medium: &mut [u8],
    cache: &mut [u8],
    buffer: &mut [u8],
    out: &mut [u8],
) -> Result<Run, Failure>
    requires medium_len { length medium.old ≡ 50688 }
    requires cache_len { length cache.old ≡ 32768 }
    requires buffer_len { length buffer.old ≡ 40000 }
    requires out_len { length out.old ≡ 94000 }
    requires p_value { p ≡ plan_of asked.call }
    requires stage_bound { p.stage ≤ stage_of run.standing }
    ensures answered { IfOk result (λ after. (after.line ≡ run.line) × (after.on ≡ run.on) × (after.next ≡ run.next)
        × Answered (turn_of asked (room_of run.standing medium.old cache.old state.old))
        (room_of after.standing medium.new cache.new state.new) out.new) }
    ensures apart { Apart to run.file → IfOk result (λ after. Apart to after.file) }
{
    let played = step::play(asked, p, run.standing, state, medium, cache, buffer, out, 0);
    let file = keep(rt, asked.call, played, name, to, run.file, medium)?;
    rt.write_all(&out[..played.n])
        .map_err(|_| Failure::Unwritten)?;
    Ok(Run {
        standing: played.standing,
        file,
        ..run
    })
}

// Takes bytes up to the end of a line, and plays the line.
pub fn play(
    rt: &(impl Files<File = File> + Print),
    mut run: Run,
    name: &[u8],
    to: Option<u8>,
    bytes: &[u8],
    state: &mut State,
    medium: &mut [u8],
    cache: &mut [u8],
    buffer: &mut [u8],
    out: &mut [u8],
) -> Result<Run, Failure>
    requires medium_len { length medium.old ≡ 50688 }
    requires cache_len { length cache.old ≡ 32768 }
    requires buffer_len { length buffer.old ≡ 40000 }
    requires out_len { length out.old ≡ 94000 }
    requires bytes_nonzero { 0 < length bytes.now }
    ensures next_nonzero { IfOk result (λ after. (0 < after.next) × (after.next ≤ length bytes.now)) }
    ensures leads { run.on ≡ true → IfOk result (λ after.
        Leads (play_of does (stand run.line (room_of run.standing medium.old cache.old state.old) true [])
        (take after.next bytes.now))
        after.line (room_of after.standing medium.new cache.new state.new) after.on out.new) }
    ensures apart { Apart to run.file → IfOk result (λ after. Apart to after.file) }
{
    let taken = line::take(run.line, bytes, 0);
    if !taken.ended {
        run.line = taken.line;
        run.next = bytes.len();
        return Ok(run);
    }
    run.line = line::empty();
    run.next = taken.next;
    let asked = call::meaning(taken.line);
    let p = plan::of(asked.call);
    if run.standing.reached() < p.stage {
        files::unplayed(&run.file)?;
        run.on = false;
        return Ok(run);
    }
    turn(
        rt, run, asked, p, name, to, state, medium, cache, buffer, out,
    )
}
