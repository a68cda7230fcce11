// The lines that change the room.
ghost use Rattle.std.specs.Prelude.{◌≡◌, false, List, ℕ, ◌≤◌, length, replicate, eqb, Ok};
ghost use Rattle.fields.specs.Block.{zeros};
ghost use Rattle.store.specs.declared.Answer.TheVariants.{Done};
ghost use Rattle.store.specs.declared.State.{State};
ghost use Rattle.store.specs.Answer.{leaves};
ghost use Rattle.store.specs.Format.{format_of};
ghost use Rattle.answers.specs.Text.{handed_text};
ghost use Rattle.rooms.specs.Room.{plan_of, fresh_length, formatted, opening, cut as Room·cut, poked, outcome_of};
ghost use Rattle.rooms.specs.Room.{calling, handing, moves, turn_of};
ghost use Rattle.rooms.specs.Parts.{stage_of, room_of, left_by};

use handover::{HandRefusal, Transfer};
use layout::CommitTime;
use rooms::parts;
use rooms::parts::Standing;
use script::call::{Asked, Call};
use store::{Answer, Refusal, State};

// `F`: a fresh medium, or none.
fn format(
    standing: &mut Standing,
    medium: &mut [u8],
    blocks: u64,
    pages: u64,
) -> Result<Answer, Refusal>
    requires { length medium.old ≡ 50688 }
    ensures { (c : List ℕ) (s : State) → left_by standing.new medium.new c s 70 result
        ≡ formatted blocks pages (format_of (zeros (fresh_length blocks pages)) blocks pages) }
{
    let bytes = parts::fresh_length(blocks, pages);
    let answer = media::format::format(&mut medium[..bytes], blocks, pages);
    *standing = Standing {
        stage: if answer.is_ok() { 2 } else { 1 },
        blocks,
        pages,
        bytes,
    };
    answer
}

// `O` and `o`: opens with a cache of so many bytes, all of them this one; the room takes cache and state over where the
// opening is accepted.
fn open(
    standing: &mut Standing,
    state: &mut State,
    medium: &[u8],
    cache: &mut [u8],
    buffer: &mut [u8],
    bytes: usize,
    byte: u8,
) -> Result<Answer, Refusal>
    requires medium_len { length medium.now ≡ 50688 }
    requires cache_len { length cache.old ≡ 32768 }
    requires buffer_len { length buffer.old ≡ 40000 }
    requires bytes_bound { bytes ≤ 40000 }
    requires bound { 2 ≤ stage_of standing.old }
    ensures { (letter : ℕ)
        → left_by standing.new medium.now cache.new state.new letter result
        ≡ opening letter (room_of standing.old medium.now cache.old state.old) (replicate bytes byte) }
{
    let given = &mut buffer[..bytes];
    given.fill(byte);
    let mut opened = State::none();
    let medium = &medium[..standing.medium_part()];
    let answer = media::open::open(medium, given, &mut opened, standing.blocks, standing.pages)?;
    let n = parts::right_length(standing.pages);
    cache[..n].copy_from_slice(&buffer[..n]);
    *state = opened;
    standing.stage = 3;
    Ok(answer)
}

// `X`: state and cache are lost.
fn cut(standing: &mut Standing)
    requires { 2 ≤ stage_of standing.old }
    ensures { (m c : List ℕ) (s : State) → left_by standing.new m c s 88 (Ok Done)
        ≡ moves 88 (Room·cut (room_of standing.old m c s)) }
{
    standing.stage = 2;
}

// `Z`: one byte of the medium, where it has it.
fn poke(standing: Standing, medium: &mut [u8], offset: u64, byte: u8)
    requires { length medium.old ≡ 50688 }
    ensures { (c : List ℕ) (s : State) → left_by standing medium.new c s 90 (Ok Done)
        ≡ moves 90 (poked (room_of standing medium.old c s) offset byte) }
{
    if offset < standing.medium_part() as u64 {
        medium[offset as usize] = byte;
    }
}

// The calls that change a store.
#[tactic(auto, unfolding(rooms::specs::Room::outcome_of))]
fn change(
    asked: Asked,
    state: &mut State,
    medium: &mut [u8],
    cache: &mut [u8],
) -> Result<Answer, Refusal>
    requires { (plan_of asked.call).looks ≡ false }
    ensures { leaves result state.new medium.new cache.new
        ≡ outcome_of asked.call asked.value state.old medium.old cache.old }
{
    match asked.call {
        Call::Begin(clock) => transactions::begin::begin(state, medium, cache, clock),
        Call::Write(number, key) => {
            writes::write::write(state, medium, cache, number, key, asked.value)
        }
        Call::Erase(number, key) => writes::erase::erase(state, medium, cache, number, key),
        Call::Commit(number, clock) => {
            transactions::commit::commit(state, medium, cache, number, clock)
        }
        Call::Abort(number) => transactions::abort::abort(state, medium, cache, number),
        Call::StoreLog => stores::store_log::store_log(state, medium, cache),
        Call::StorePage(page) => stores::store_page::store_page(state, medium, cache, page),
        Call::Checkpoint => stores::checkpoint::checkpoint(state, medium, cache),
        _ => Ok(Answer::Done),
    }
}

// A call that changes an opened store.
fn make(
    asked: Asked,
    standing: Standing,
    state: &mut State,
    medium: &mut [u8],
    cache: &mut [u8],
) -> Result<Answer, Refusal>
    requires medium_len { length medium.old ≡ 50688 }
    requires cache_len { length cache.old ≡ 32768 }
    requires call_value { (plan_of asked.call).looks ≡ false }
    requires bound { 3 ≤ stage_of standing }
    ensures { left_by standing medium.new cache.new state.new (plan_of asked.call).letter result
        ≡ calling asked.call asked.value (room_of standing medium.old cache.old state.old) }
{
    let medium = &mut medium[..standing.medium_part()];
    let cache = &mut cache[..standing.cache_part()];
    change(asked, state, medium, cache)
}

// `H`, on an opened store: a handover is lent medium and cache as a call is.
pub fn hand(
    asked: Transfer,
    standing: Standing,
    state: &mut State,
    medium: &mut [u8],
    cache: &mut [u8],
) -> Result<CommitTime, HandRefusal>
    requires medium_len { length medium.old ≡ 50688 }
    requires cache_len { length cache.old ≡ 32768 }
    requires bound { 3 ≤ stage_of standing }
    ensures { record { room = room_of standing medium.new cache.new state.new; text = handed_text result }
        ≡ handing asked (room_of standing medium.old cache.old state.old) }
{
    let medium = &mut medium[..standing.medium_part()];
    let cache = &mut cache[..standing.cache_part()];
    handover::hand::hand(state, medium, cache, asked)
}

// Plays a line that changes the room; `H` has its own answers, and is not played here.
pub fn turn(
    asked: Asked,
    standing: &mut Standing,
    state: &mut State,
    medium: &mut [u8],
    cache: &mut [u8],
    buffer: &mut [u8],
) -> Result<Answer, Refusal>
    requires medium_len { length medium.old ≡ 50688 }
    requires cache_len { length cache.old ≡ 32768 }
    requires buffer_len { length buffer.old ≡ 40000 }
    requires looks_value { (plan_of asked.call).looks ≡ false }
    requires letter_value { eqb (plan_of asked.call).letter 72 ≡ false }
    requires stage_bound { (plan_of asked.call).stage ≤ stage_of standing.old }
    ensures { left_by standing.new medium.new cache.new state.new (plan_of asked.call).letter result
        ≡ turn_of asked (room_of standing.old medium.old cache.old state.old) }
{
    match asked.call {
        Call::Format(blocks, pages) => format(standing, medium, blocks, pages),
        Call::Open(byte) => {
            let bytes = parts::right_length(standing.pages);
            open(standing, state, medium, cache, buffer, bytes, byte)
        }
        Call::OpenSized(bytes) => {
            open(standing, state, medium, cache, buffer, bytes as usize, 0)
        }
        Call::Cut => {
            cut(standing);
            Ok(Answer::Done)
        }
        Call::Poke(offset, byte) => {
            poke(*standing, medium, offset, byte);
            Ok(Answer::Done)
        }
        _ => make(asked, *standing, state, medium, cache),
    }
}
