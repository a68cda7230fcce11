// The state in its 448 words, seven rows of 64: the numbers, the first changes of the pages, and of the places kind,
// number, time, end place and waiting versions.
#![tactic(auto, unfolding(crate::specs::Words::life_by, crate::specs::Words::place_in, crate::specs::Words::phase_by))]

ghost use Rattle.std.specs.Prelude.{◌≡◌, ◌<◌, ◌+◌, get_or, length, List, ℕ};
ghost use Rattle.store.specs.declared.Place.{Place};
ghost use Rattle.relief.specs.Words.{life_by, place_in, phase_by, places_of, state_by, state_of, with_places, KeepsOthers};

use layout::{CommitTime, EndPlace, TxNumber};
use store::{Life, Phase, Place, State};

const FIRSTS: usize = 64;

const KINDS: usize = 128;

const NUMBERS: usize = 192;

const TIMES: usize = 256;

const ENDS: usize = 320;

const COUNTS: usize = 384;

// Reads place i; of a free one only whether versions wait.
fn read_place(place: &mut Place, words: &[u64; 448], i: usize)
    requires { i < 64 }
    ensures { place.new ≡ place_in words.now i }
{
    place.waiting = words[COUNTS + i];
    match words[KINDS + i] {
        1 => place.life = Life::Active(TxNumber(words[NUMBERS + i]), words[TIMES + i]),
        2 => {
            place.life = Life::Committed(
                TxNumber(words[NUMBERS + i]),
                CommitTime(words[TIMES + i]),
                EndPlace(words[ENDS + i]),
            )
        }
        _ => place.life = Life::Free,
    }
}

// A checkpoint under way, by its kind, oldest sequence and time.
fn phase_by(kind: u64, oldest: u64, time: u64) -> Phase
    ensures { result ≡ phase_by kind oldest time }
{
    match kind {
        1 => Phase::FirstStored(oldest, CommitTime(time)),
        2 => Phase::SecondStored(oldest, CommitTime(time)),
        _ => Phase::Idle,
    }
}

// Reads the numbers of the state that words and tail hold; the places stay as they were.
pub fn read_numbers(state: &mut State, words: &[u64; 448], tail: &[u8; 512])
    ensures numbers { state.new ≡ state_by words.now state.old.places tail.now }
    ensures places_len { length state.new.places ≡ 64 }
{
    state.blocks = words[0];
    state.pages = words[1];
    state.slots = words[2];
    state.next = TxNumber(words[3]);
    state.last = CommitTime(words[4]);
    state.saved = CommitTime(words[5]);
    state.end = EndPlace(words[6]);
    state.tail = *tail;
    state.ring = words[7];
    state.first.copy_from_slice(&words[FIRSTS..FIRSTS + 64]);
    state.phase = phase_by(words[8], words[9], words[10]);
}

// Reads the places.
pub fn read_places(places: &mut [Place; 64], words: &[u64; 448])
    ensures { places.new ≡ places_of words.now }
{
    for (i, place) in places.iter_mut().enumerate() {
        read_place(place, words, i);
    }
}

// The words of a phase. Those that say nothing of it stay, as the time of one that is idle.
fn phase_words(phase: Phase, before: [u64; 3]) -> [u64; 3]
    ensures { phase_by (get_or result 0 0) (get_or result 1 0) (get_or result 2 0) ≡ phase }
{
    let [kind, oldest, time] = before;
    match phase {
        Phase::Idle => [if kind == 1 || kind == 2 { 0 } else { kind }, oldest, time],
        Phase::FirstStored(oldest, time) => [1, oldest, time.0],
        Phase::SecondStored(oldest, time) => [2, oldest, time.0],
    }
}

// Lays a life over its words. Those that say nothing of it stay, as the number of a place that is free.
fn lay_life(words: &mut [u64; 448], i: usize, life: Life)
    requires { i < 64 }
    ensures here { life_by (get_or words.new (128 + i) 0) (get_or words.new (192 + i) 0) (get_or words.new (256 + i) 0) (get_or words.new (320 + i) 0) ≡ life }
    ensures beside { KeepsOthers words.old words.new i }
{
    match life {
        Life::Free => {
            if words[KINDS + i] == 1 || words[KINDS + i] == 2 {
                words[KINDS + i] = 0;
            }
        }
        Life::Active(number, clock) => {
            words[KINDS + i] = 1;
            words[NUMBERS + i] = number.0;
            words[TIMES + i] = clock;
        }
        Life::Committed(number, time, end) => {
            words[KINDS + i] = 2;
            words[NUMBERS + i] = number.0;
            words[TIMES + i] = time.0;
            words[ENDS + i] = end.0;
        }
    }
}

// Lays a place over its words.
fn lay_place(words: &mut [u64; 448], i: usize, place: Place)
    requires { i < 64 }
    ensures here { place_in words.new i ≡ place }
    ensures beside { KeepsOthers words.old words.new i }
{
    lay_life(words, i, place.life);
    words[COUNTS + i] = place.waiting;
}

// Lays a phase over its words.
pub fn lay_phase(words: &mut [u64; 448], phase: Phase)
    ensures { phase_by (get_or words.new 8 0) (get_or words.new 9 0) (get_or words.new 10 0) ≡ phase }
{
    let [kind, oldest, time] = phase_words(phase, [words[8], words[9], words[10]]);
    words[8] = kind;
    words[9] = oldest;
    words[10] = time;
}

// Lays the numbers of a state over the front of its words.
fn lay_numbers(words: &mut [u64; 448], state: &State)
    ensures { (places : List Place) → state_by words.new places state.now.tail ≡ with_places state.now places }
{
    let [kind, oldest, time] = phase_words(state.phase, [words[8], words[9], words[10]]);
    words[FIRSTS..FIRSTS + 64].copy_from_slice(&state.first);
    words[..11].copy_from_slice(&[
        state.blocks,
        state.pages,
        state.slots,
        state.next.0,
        state.last.0,
        state.saved.0,
        state.end.0,
        state.ring,
        kind,
        oldest,
        time,
    ]);
}

// Lays the places over theirs.
fn lay_places(words: &mut [u64; 448], places: &[Place; 64])
    ensures placed { places_of words.new ≡ places.now }
    ensures front { (k : ℕ) → k < 128 → get_or words.new k 0 ≡ get_or words.old k 0 }
{
    for (i, &place) in places.iter().enumerate() {
        lay_place(words, i, place);
    }
}

// Lays a state over its words.
pub fn lay(words: &mut [u64; 448], state: &State)
    ensures { state_of words.new state.now.tail ≡ state.now }
{
    lay_numbers(words, state);
    lay_places(words, &state.places);
}
