// The pair table: 64 places of a number and a time.
ghost use Rattle.std.specs.Prelude.{◌≡◌, ◌+◌, ◌≤◌, ◌<◌, ◌*◌, length};
ghost use Rattle.layout.specs.Table.{table_pair, put_pair, pair_form};

use crate::item::Pair;

// Place i of the medium's table.
#[tactic(auto, unfolding(crate::specs::Table::pair_at, crate::specs::Table::table_pair))]
pub fn read(medium: &[u8], i: usize) -> Pair
    requires i_bound { i < 64 }
    requires in_bounds { 1536 ≤ length medium.now }
    ensures { result ≡ table_pair medium.now i }
{
    let a = 512 + 16 * i;
    crate::item::read_pair(&medium[a..a + 16])
}

// Writes place i of a block of the table.
pub fn write(block: &mut [u8], i: usize, pair: Pair)
    requires i_bound { i < 32 }
    requires block_len { length block.old ≡ 512 }
    ensures { block.new ≡ put_pair block.old i pair }
{
    let a = 16 * i;
    fields::field::put8(block, a, pair.number.0);
    fields::field::put8(block, a + 8, pair.time.0);
}

// Has an empty place time 0?
#[tactic(auto, unfolding(crate::specs::Table::pair_form))]
pub fn in_form(pair: Pair) -> bool
    ensures { result ≡ pair_form pair }
{
    pair.number.0 != 0 || pair.time.0 == 0
}
