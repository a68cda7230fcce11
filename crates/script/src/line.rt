// A line of a script, taken byte by byte: a letter, then words, each behind one space. All words but the last are
// decimal numbers; the last is read as a decimal number and as hex digits side by side.
ghost use Rattle.std.specs.Prelude.{◌≡◌, [], ◌∷◌, ◌+◌, ◌*◌, ◌<◌, ◌≤◌, length, drop, cond, unwrap_or, option_map, IfSome};
ghost use Rattle.script.specs.Words.{hex_digit};
ghost use Rattle.script.specs.Reader.{no_line, pushed, take_of};

// What was taken of a line: its letter (0: none yet), how many words were begun behind it, the four numbers before the
// last word, the last word's number, whether the word is all digits and below 2^64, its hex digits counted (33: too
// many, or another byte), the first sixteen of them and the others, and whether the line is of another form already.
#[derive(Clone, Copy)]
pub struct Line {
    pub letter: u8,
    pub count: u8,
    pub fifth: u64,
    pub fourth: u64,
    pub third: u64,
    pub second: u64,
    pub last: u64,
    pub number: bool,
    pub hexes: u8,
    pub high: u64,
    pub low: u64,
    pub bad: bool,
}

#[tactic(auto, unfolding(crate::specs::Reader::no_line))]
pub fn empty() -> Line
    ensures { result ≡ no_line }
{
    Line {
        letter: 0,
        count: 0,
        fifth: 0,
        fourth: 0,
        third: 0,
        second: 0,
        last: 0,
        number: true,
        hexes: 0,
        high: 0,
        low: 0,
        bad: false,
    }
}

// The number that a hex digit is.
#[tactic(auto, unfolding(crate::specs::Words::hex_digit, crate::specs::Words::is_digit, crate::specs::Words::is_in))]
fn hex_digit(b: u8) -> Option<u64>
    ensures value { unwrap_or result 16 ≡ hex_digit b }
    ensures bound { IfSome result (λ digit. digit < 16) }
{
    match b {
        b'0'..=b'9' => Some(u64::from(b - b'0')),
        b'a'..=b'f' => Some(u64::from(b - b'a') + 10),
        _ => None,
    }
}

// A hex digit behind a number of 64 bits.
fn push(n: u64, digit: u64) -> u64
    requires { digit < 16 }
    ensures { result ≡ pushed n digit }
{
    (n << 4) | digit
}

impl Line {
    ghost use Rattle.script.specs.Reader.{spoilt, with_letter, is_number, next_word, with_space, stays_number, with_digit};
    ghost use Rattle.script.specs.Reader.{no_word, grown, last_word};

    // It is of another form, whatever comes.
    #[tactic(auto, unfolding(crate::specs::Reader::spoilt))]
    fn spoilt(self) -> Line
        ensures { result ≡ spoilt self }
    {
        Line { bad: true, ..self }
    }

    // With its first byte.
    #[tactic(auto, unfolding(crate::specs::Reader::with_letter, crate::specs::Reader::lettered, crate::specs::Form::is_letter, crate::specs::Words::is_in))]
    fn with_letter(self, b: u8) -> Line
        ensures { result ≡ with_letter self b }
    {
        if !b.is_ascii_alphabetic() {
            return self.spoilt();
        }
        Line { letter: b, ..self }
    }

    // Is the last word a number?
    #[tactic(auto, unfolding(crate::specs::Reader::is_number))]
    pub fn is_number(self) -> bool
        ensures { result ≡ is_number self }
    {
        self.hexes != 0 && self.number
    }

    // With another word begun.
    #[tactic(auto, unfolding(crate::specs::Reader::next_word, crate::specs::Reader::no_line))]
    fn next_word(self) -> Line
        requires { self.count < 5 }
        ensures { result ≡ next_word self }
    {
        Line {
            letter: self.letter,
            count: self.count + 1,
            fifth: self.fourth,
            fourth: self.third,
            third: self.second,
            second: self.last,
            bad: self.bad,
            ..empty()
        }
    }

    // With a space behind it: another word begins.
    #[tactic(auto, unfolding(crate::specs::Reader::with_space))]
    fn with_space(self) -> Line
        ensures { result ≡ with_space self }
    {
        match self.count {
            _ if self.letter == 0 => self.spoilt(),
            0 => self.next_word(),
            1..5 if self.is_number() => self.next_word(),
            _ => self.spoilt(),
        }
    }

    // The last word's number with a digit behind it, if it stays one below 2^64.
    #[tactic(auto, unfolding(crate::specs::Reader::stays_number))]
    fn number_with(self, digit: u64) -> Option<u64>
        ensures { result ≡ cond (stays_number self digit) (Some (10 * self.last + digit)) None }
    {
        if !self.number || digit >= 10 {
            return None;
        }
        self.last.checked_mul(10)?.checked_add(digit)
    }

    // With a digit behind its last word.
    #[tactic(auto, unfolding(crate::specs::Reader::with_digit, crate::specs::Reader::one_more))]
    fn with_digit(mut self, digit: u64) -> Line
        requires { digit < 16 }
        ensures { result ≡ with_digit self digit }
    {
        let number = self.number_with(digit);
        self.number = number.is_some();
        self.last = number.unwrap_or(self.last);
        if self.hexes < 16 {
            self.high = push(self.high, digit);
        } else {
            self.low = push(self.low, digit);
        }
        self.hexes = self.hexes.min(32) + 1;
        self
    }

    // With a byte behind its last word that is no digit.
    #[tactic(auto, unfolding(crate::specs::Reader::no_word))]
    fn no_word(self) -> Line
        ensures { result ≡ no_word self }
    {
        Line {
            number: false,
            hexes: 33,
            ..self
        }
    }

    // With one byte more.
    #[tactic(auto, unfolding(crate::specs::Reader::grown))]
    fn with_byte(self, b: u8) -> Line
        ensures { result ≡ grown self b }
    {
        if b == b' ' {
            return self.with_space();
        }
        if self.letter == 0 {
            return self.with_letter(b);
        }
        if self.count == 0 {
            return self.spoilt();
        }
        match hex_digit(b) {
            Some(digit) => self.with_digit(digit),
            None => self.no_word(),
        }
    }

    // The last word as a number, as sixteen bytes, as one byte: each only if it is one.
    #[tactic(auto, unfolding(crate::specs::Reader::last_word))]
    pub fn last_number(self) -> Option<u64>
        ensures { result ≡ (last_word self).number }
    {
        self.is_number().then_some(self.last)
    }

    #[tactic(auto, unfolding(crate::specs::Reader::last_word))]
    pub fn last_value(self) -> Option<[u8; 16]>
        ensures { result ≡ (last_word self).value }
    {
        if self.hexes != 32 {
            return None;
        }
        let value = (u128::from(self.high) << 64) | u128::from(self.low);
        Some(value.to_be_bytes())
    }

    #[tactic(auto, unfolding(crate::specs::Reader::last_word, crate::specs::Reader::wide))]
    pub fn last_byte(self) -> Option<u8>
        ensures { option_map (λ b. b ∷ []) result ≡ (last_word self).byte }
    {
        (self.hexes == 2).then_some((self.high & 0xff) as u8)
    }
}

// A line with the bytes that are its own, the place of the first byte behind them, and whether it ended, at a newline.
#[derive(Clone, Copy)]
pub struct Taken {
    pub line: Line,
    pub next: usize,
    pub ended: bool,
}

// Goes on with a line from a place of the bytes, up to its end or to theirs.
pub fn take(mut line: Line, bytes: &[u8], from: usize) -> Taken
    requires { from ≤ length bytes.now }
    ensures { result ≡ take_of line (drop from bytes.now) from }
{
    for i in from..bytes.len() {
        if bytes[i] == b'\n' {
            return Taken {
                line,
                next: i + 1,
                ended: true,
            };
        }
        line = line.with_byte(bytes[i]);
    }
    Taken {
        line,
        next: bytes.len(),
        ended: false,
    }
}
