// Choices of lines by their numbers.
ghost use Rattle.std.specs.Prelude.{◌≡◌, ◌≤◌, ◌<◌, ◌^◌};
ghost use Rattle.shortest.specs.Choice.{size_of};
ghost use Rattle.shortest.specs.Kept.{flags_of};

// How many choices there are of m lines and one more that is always chosen.
pub fn choices(m: usize) -> usize
    requires { m ≤ 11 }
    ensures { result ≡ 2 ^ m }
{
    1 << m
}

// Choice j of them: the bits of j, the highest first, say which of the m lines are left out.
pub fn chosen(m: usize, j: usize) -> [bool; 12]
    requires m_bound { m ≤ 11 }
    requires j_bound { j < 2 ^ m }
    ensures { result ≡ flags_of m j }
{
    let mut flags = [false; 12];
    for i in 0..m {
        flags[i] = (j >> (m - 1 - i)) & 1 == 0;
    }
    flags[m] = true;
    flags
}

// How many lines are chosen.
pub fn size(flags: [bool; 12]) -> usize
    ensures { result ≡ size_of flags }
{
    flags.iter().filter(|&&chosen| chosen).count()
}
