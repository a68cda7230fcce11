// Playing chosen lines on a store of their own.
ghost use Rattle.std.specs.Prelude.{◌≡◌};
ghost use Rattle.book.specs.Steps.{world};
ghost use Rattle.shortest.specs.Script.{end_of};
ghost use Rattle.shortest.specs.Choice.{picked};
ghost use Rattle.shortest.specs.Made.{made, made_of};

use book::call::Call;
use book::room;
use store::State;

// Makes the call of a line; answers 0 or its refusal. A place without a line makes none.
fn make(line: Option<Call>, state: &mut State, medium: &mut [u8], cache: &mut [u8]) -> u64
    ensures { made (world state.new medium.new cache.new) result ≡ made_of (world state.old medium.old cache.old) line }
{
    match line {
        Some(call) => room::number(room::make(call, state, medium, cache)),
        None => 0,
    }
}

// Plays the chosen lines on a store with 4 log blocks and 2 pages that is formatted and opened for them; answers 0 or
// the refusal that they end in.
pub fn play(flags: [bool; 12], calls: &[Option<Call>; 12]) -> u64
    ensures { result ≡ end_of (picked flags calls.now) }
{
    let mut state = State::none();
    let mut medium = [0; 4608];
    let mut cache = [0; 1024];
    let _ = media::format::format(&mut medium, 4, 2);
    let _ = media::open::open(&medium, &mut cache, &mut state, 4, 2);
    let mut number = 0;
    for (&chosen, &line) in flags.iter().zip(calls) {
        if chosen {
            number = make(line, &mut state, &mut medium, &mut cache);
        }
    }
    number
}
