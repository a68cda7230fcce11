// Little-endian fields of a byte slice.
ghost use Rattle.std.specs.Prelude.{◌≡◌, ◌+◌, ◌≤◌, ◌<◌, length};
ghost use Rattle.fields.specs.Field.{enc, dec};
ghost use Rattle.fields.specs.Part.{part, splice};

// The number of a field: the whole slice, lowest byte first.
pub fn get(s: &[u8]) -> u64
    requires { length s.now ≤ 8 }
    ensures { result ≡ dec s.now }
{
    let mut v = 0;
    for &b in s.iter().rev() {
        v = v * 256 + u64::from(b);
    }
    v
}

// Writes n into the whole slice.
pub fn put(s: &mut [u8], n: u64)
    ensures { s.new ≡ enc (length s.old) n }
{
    let mut v = n;
    for b in s.iter_mut() {
        *b = (v % 256) as u8;
        v /= 256;
    }
}

// The fields of 2 and 8 bytes that begin at a place.
pub fn get2(s: &[u8], at: usize) -> u64
    requires { at + 2 ≤ length s.now }
    ensures { result ≡ dec (part s.now at 2) }
{
    let mut bytes = [0; 2];
    bytes.copy_from_slice(&s[at..at + 2]);
    u64::from(u16::from_le_bytes(bytes))
}

pub fn get8(s: &[u8], at: usize) -> u64
    requires { at + 8 ≤ length s.now }
    ensures { result ≡ dec (part s.now at 8) }
{
    let mut bytes = [0; 8];
    bytes.copy_from_slice(&s[at..at + 8]);
    u64::from_le_bytes(bytes)
}

pub fn put2(s: &mut [u8], at: usize, n: u64)
    requires { at + 2 ≤ length s.old }
    ensures { s.new ≡ splice s.old at (enc 2 n) }
{
    s[at..at + 2].copy_from_slice(&n.to_le_bytes()[..2]);
}

pub fn put8(s: &mut [u8], at: usize, n: u64)
    requires { at + 8 ≤ length s.old }
    ensures { s.new ≡ splice s.old at (enc 8 n) }
{
    s[at..at + 8].copy_from_slice(&n.to_le_bytes());
}
