// The bytes of the lines that a program prints, put behind those that stand in the output already.
ghost use Rattle.std.specs.Prelude.{◌≡◌, [], ◌∷◌, ◌++◌, ◌+◌, ◌*◌, ◌<◌, ◌≤◌, length, take};
ghost use Rattle.io.specs.Digits.{hex_digit_ascii};
ghost use Rattle.store.specs.Answer.{refusal_number};
ghost use Rattle.script.specs.Print.{decimal, hex_of};

use store::Refusal;

// Puts a byte behind the first n; answers how many there are then.
pub fn byte(out: &mut [u8], n: usize, b: u8) -> usize
    requires { n < length out.old }
    ensures value { result ≡ n + 1 }
    ensures out_after { take result out.new ≡ take n out.old ++ (b ∷ []) }
{
    out[n] = b;
    n + 1
}

// Puts bytes behind the first n.
pub fn bytes(out: &mut [u8], n: usize, text: &[u8]) -> usize
    requires { n + length text.now ≤ length out.old }
    ensures value { result ≡ n + length text.now }
    ensures out_after { take result out.new ≡ take n out.old ++ text.now }
{
    let end = n + text.len();
    out[n..end].copy_from_slice(text);
    end
}

// Puts a number in decimal behind the first n bytes.
pub fn number(out: &mut [u8], n: usize, x: u64) -> usize
    requires { n + 20 ≤ length out.old }
    ensures upper_bound { result ≤ n + 20 }
    ensures out_after { take result out.new ≡ take n out.old ++ decimal x }
{
    let mut text = [0u8; 20];
    let count = io::decimal(x, &mut text);
    bytes(out, n, &text[..count])
}

// The hex digit of a number below 16, in lower case.
fn digit(d: u8) -> u8
    requires { d < 16 }
    ensures { result ≡ hex_digit_ascii d }
{
    if d < 10 { b'0' + d } else { b'a' + (d - 10) }
}

// Puts two hex digits for each byte of the text behind the first n bytes.
pub fn hex(out: &mut [u8], n: usize, text: &[u8]) -> usize
    requires { n + 2 * length text.now ≤ length out.old }
    ensures value { result ≡ n + 2 * length text.now }
    ensures out_after { take result out.new ≡ take n out.old ++ hex_of text.now }
{
    let mut at = n;
    for b in text {
        at = byte(out, at, digit(b / 16));
        at = byte(out, at, digit(b % 16));
    }
    at
}

// The number of a refusal.
#[tactic(auto, unfolding(store::specs::Answer::refusal_number))]
pub fn number_of(r: Refusal) -> u64
    ensures { result ≡ refusal_number r }
{
    match r {
        Refusal::BadSizes => 1,
        Refusal::BadCache => 2,
        Refusal::Malformed => 3,
        Refusal::NoPlace => 4,
        Refusal::NotActive => 5,
        Refusal::Held => 6,
        Refusal::NoSlot => 7,
        Refusal::LogFull => 8,
        Refusal::NoTime => 9,
        Refusal::NotYet => 10,
        Refusal::NoPage => 11,
        Refusal::NotLogged => 12,
        Refusal::Unchanged => 13,
        Refusal::ShortBuffer => 14,
        Refusal::NoNumber => 15,
        Refusal::Unfit => 16,
        Refusal::NoRecord => 18,
    }
}
