// Format.
ghost use Rattle.std.specs.Prelude.{◌≡◌, ◌&&◌, length, eqb};
ghost use Rattle.store.specs.State.{in_range};
ghost use Rattle.fields.specs.Block.{medium_length};
ghost use Rattle.store.specs.Format.{fresh_medium, format_of};

use layout::master::Fields;
use layout::{CommitTime, TxNumber};
use store::{Answer, Refusal};

// Are L and D in range, and is the medium's length right?
pub(crate) fn sizes_fit(medium: usize, blocks: u64, pages: u64) -> bool
    ensures { result ≡ (in_range blocks pages && eqb medium (medium_length blocks pages)) }
{
    if !memory::fit::in_range(blocks, pages) {
        return false;
    }
    medium == layout::place::medium_length(blocks, pages)
}

// A fresh master, and zeros in all other blocks.
fn lay(medium: &mut [u8], blocks: u64, pages: u64)
    requires { length medium.old ≡ medium_length blocks pages }
    ensures { medium.new ≡ fresh_medium blocks pages }
{
    medium.fill(0);
    layout::master::write(
        &mut medium[..512],
        Fields {
            blocks: blocks,
            pages: pages,
            oldest: 1,
            next: TxNumber(1),
            last: CommitTime(0),
        },
    );
}

pub fn format(medium: &mut [u8], blocks: u64, pages: u64) -> Result<Answer, Refusal>
    ensures { record { answer = result; medium = medium.new } ≡ format_of medium.old blocks pages }
{
    if !sizes_fit(medium.len(), blocks, pages) {
        return Err(Refusal::BadSizes);
    }
    lay(medium, blocks, pages);
    Ok(Answer::Done)
}
