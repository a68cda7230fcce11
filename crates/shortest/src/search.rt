// The search for the shortest choice.
ghost use Rattle.std.specs.Prelude.{◌≡◌, ◌≤◌, ◌<◌, ◌^◌, ◌&&◌, ltb};
ghost use Rattle.shortest.specs.Kept.{size_in, ends_in, best_in, kept_flags};

use crate::choice::{choices, chosen, size};
use crate::play::play;
use book::call::Call;

// Has choice j of m + 1 lines fewer than the best so far, and does it end in the number?
fn is_better(j: usize, best: usize, m: usize, number: u64, calls: &[Option<Call>; 12]) -> bool
    requires m_bound { m ≤ 11 }
    requires j_bound { j < 2 ^ m }
    requires best_bound { best < 2 ^ m }
    ensures { result ≡ (ltb (size_in m j) (size_in m best) && ends_in calls.now m number j) }
{
    let flags = chosen(m, j);
    size(flags) < size(chosen(m, best)) && play(flags, calls) == number
}

// The best of all choices of m + 1 lines that end in the number.
fn search(m: usize, number: u64, calls: &[Option<Call>; 12]) -> usize
    requires { m ≤ 11 }
    ensures upper_bound { result < 2 ^ m }
    ensures value { result ≡ best_in calls.now m number }
{
    let mut best = 0;
    for j in 0..choices(m) {
        if is_better(j, best, m, number, calls) {
            best = j;
        }
    }
    best
}

// The lines to be printed of m + 1: those of the shortest choice, and none where the last is not refused.
pub fn shortest(m: usize, calls: &[Option<Call>; 12]) -> [bool; 12]
    requires { m ≤ 11 }
    ensures { result ≡ kept_flags calls.now m }
{
    let number = play(chosen(m, 0), calls);
    if number == 0 {
        return [false; 12];
    }
    chosen(m, search(m, number, calls))
}
