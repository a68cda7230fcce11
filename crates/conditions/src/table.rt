// The pair table.
ghost use Rattle.std.specs.Prelude.{◌≡◌, ◌<◌, ◌≤◌, length, eqb};
ghost use Rattle.layout.specs.Table.{table_pair};
ghost use Rattle.store.specs.Places.{first};
ghost use Rattle.store.specs.OpenPairs.{table_find};
ghost use Rattle.conditions.specs.Lookup.{Extent};
ghost use Rattle.conditions.specs.Passes.{all_of, place_ok};

// The first of the first `count` places that holds the number.
fn find_below(medium: &[u8], number: u64, count: usize) -> Option<usize>
    requires in_bounds { 1536 ≤ length medium.now }
    requires count_bound { count ≤ 64 }
    ensures { result ≡ first (λ i. eqb (table_pair medium.now i).number.0 number) count 0 }
{
    (0..count).find(|&i| layout::table::read(medium, i).number.0 == number)
}

// How many places of the table there are up to the last one in use.
pub fn extent(medium: &[u8]) -> usize
    requires { 1536 ≤ length medium.now }
    ensures { Extent medium.now result }
{
    for i in (0..64).rev() {
        if layout::table::read(medium, i).number.0 != 0 {
            return i + 1;
        }
    }
    0
}

// The table place of a number; 0 has none.
pub fn find(medium: &[u8], used: usize, number: u64) -> Option<usize>
    requires in_bounds { 1536 ≤ length medium.now }
    requires extent { Extent medium.now used }
    ensures { result ≡ table_find medium.now number }
{
    if number == 0 {
        return None;
    }
    find_below(medium, number, used)
}

// A place of the table: its form, its bounds, and that no place before it has the number.
fn place_ok(medium: &[u8], i: usize, next: u64, last: u64) -> bool
    requires in_bounds { 1536 ≤ length medium.now }
    requires i_bound { i < 64 }
    ensures { result ≡ place_ok medium.now next last i }
{
    let pair = layout::table::read(medium, i);
    let number = pair.number.0;
    let time = pair.time.0;
    if number == 0 {
        return time == 0;
    }
    number < next && time <= last && time != 0 && find_below(medium, number, i).is_none()
}

// All places of the table.
pub fn all_ok(medium: &[u8], next: u64, last: u64) -> bool
    requires { 1536 ≤ length medium.now }
    ensures { result ≡ all_of (place_ok medium.now next last) 0 64 }
{
    (0..64).all(|i| place_ok(medium, i, next, last))
}
