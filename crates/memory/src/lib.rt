// The state as a caller lends it: whether it fits its buffers, and what a block changes of it.
#![tactic(auto)]

pub mod fit;

ghost use Rattle.std.specs.Prelude.{◌≡◌, ◌<◌};
ghost use Rattle.store.specs.Write.{touched};

// Notes that a block changed a page, if none did since it was stored.
pub fn touch(first: &mut [u64; 64], page: usize, sequence: u64)
    requires { page < 64 }
    ensures { first.new ≡ touched first.old page sequence }
{
    if first[page] == 0 {
        first[page] = sequence;
    }
}
