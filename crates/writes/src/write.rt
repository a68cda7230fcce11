// Write, and what it shares with erase.
ghost use Rattle.std.specs.Prelude.{◌≡◌, ◌<◌, None, Some, Ok, IfOk, IfErr};
ghost use Rattle.layout.specs.declared.item.Width.TheVariants.{Two};
ghost use Rattle.store.specs.Answer.{leaves, ask};
ghost use Rattle.store.specs.Places.{find_active};
ghost use Rattle.store.specs.Chain.{newest};
ghost use Rattle.store.specs.Write.{write_asks, or_none, written, write_step, add_of, write_of};

use layout::TxNumber;
use layout::item::{VersionHead, Width};
use store::{Answer, Refusal, State};

// The questions put to a write or an erase; passed, they give the place of the transaction and the earlier slot.
fn asks(
    state: &State,
    medium: &[u8],
    cache: &[u8],
    number: u64,
    key: u16,
) -> Result<(usize, u64), Refusal>
    ensures yes { IfOk result (λ found. (ask (write_asks state.now medium.now cache.now number key) ≡ None) × (find_active state.now.places number ≡ Some found.0) × (found.1 ≡ or_none (newest cache.now key state.now.slots))) }
    ensures no { IfErr result (λ why. ask (write_asks state.now medium.now cache.now number key) ≡ Some why) }
{
    questions::fit(state, medium, cache)?;
    questions::record(key)?;
    let place = questions::active(&state.places, number)?;
    let newest = chain::newest::find(cache, key, state.slots);
    if chain::newest::is_held(newest, cache, &state.places, number) {
        return Err(Refusal::Held);
    }
    if 15 * state.pages <= state.slots {
        return Err(Refusal::NoSlot);
    }
    if !tail::may_log(state, medium, 34) {
        return Err(Refusal::LogFull);
    }
    Ok((place, newest.unwrap_or(65535)))
}

// Counts the new version of the transaction in the place, whose record the tail took.
#[tactic(auto, unfolding(store::specs::Write::written, store::specs::Places::place_at, fields::specs::Block::page_of))]
fn count_version(state: &mut State, place: usize)
    requires place_bound { place < 64 }
    requires slots_bound { state.old.slots < 960 }
    ensures { state.new ≡ written state.old place (record { medium = state.old.tail; tail = state.old.tail; end = state.old.end; saved = state.old.saved }) }
{
    let sequence = layout::journal::sequence(&state.tail);
    state.places[place].raise();
    memory::touch(&mut state.first, (state.slots / 15) as usize, sequence);
    state.slots += 1;
}

// Logs the version, puts it into its slot and counts it.
fn step(
    state: &mut State,
    medium: &mut [u8],
    cache: &mut [u8],
    place: usize,
    head: VersionHead,
    value: &[u8; 16],
) -> Answer
    requires passed { ask (write_asks state.old medium.old cache.old head.number.0 head.key) ≡ None }
    requires place_value { find_active state.old.places head.number.0 ≡ Some place }
    requires slot_value { head.slot ≡ state.old.slots }
    requires width_value { head.width ≡ Two }
    ensures { leaves (Ok result) state.new medium.new cache.new ≡ write_step state.old medium.old cache.old place head value.now }
{
    tail::take_version(state, medium, head, value);
    let end = tail::end_of(&state.tail);
    layout::page::put_version(
        cache,
        head.slot,
        end,
        head.number,
        head.key,
        head.kind,
        head.earlier,
        value,
    );
    count_version(state, place);
    Answer::Written(head.slot)
}

// Adds a version of either kind.
pub(crate) fn add(
    state: &mut State,
    medium: &mut [u8],
    cache: &mut [u8],
    number: u64,
    key: u16,
    kind: u8,
    value: [u8; 16],
) -> Result<Answer, Refusal>
    ensures { leaves result state.new medium.new cache.new ≡ add_of state.old medium.old cache.old number key kind value }
{
    let (place, earlier) = asks(state, medium, cache, number, key)?;
    let head = VersionHead {
        width: Width::Two,
        slot: state.slots,
        key: key,
        kind: kind,
        earlier: earlier,
        number: TxNumber(number),
    };
    Ok(step(state, medium, cache, place, head, &value))
}

#[tactic(auto, unfolding(store::specs::Write::write_of))]
pub fn write(
    state: &mut State,
    medium: &mut [u8],
    cache: &mut [u8],
    number: u64,
    key: u16,
    value: [u8; 16],
) -> Result<Answer, Refusal>
    ensures { leaves result state.new medium.new cache.new ≡ write_of state.old medium.old cache.old number key value }
{
    add(state, medium, cache, number, key, 0, value)
}
