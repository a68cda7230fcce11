// The chosen lines of an input, as they stand there.
ghost use Rattle.std.specs.Prelude.{◌≡◌, [], ◌∷◌, ◌++◌, ◌+◌, ◌<◌, ◌≤◌, length, take, drop};
ghost use Rattle.script.specs.Words.{lines_of};
ghost use Rattle.shortest.specs.Script.{text_of};
ghost use Rattle.shortest.specs.Choice.{picked};
ghost use Rattle.shortest.specs.Lines.{line_in};

use script::print;

// Where the line ends that begins at a place: at its newline, or at the end of the bytes.
fn line_end(bytes: &[u8], from: usize) -> usize
    requires { from ≤ length bytes.now }
    ensures upper_bound { result ≤ length bytes.now }
    ensures value { result ≡ from + length (line_in (drop from bytes.now)) }
{
    let rest = &bytes[from..];
    from + rest.iter().position(|&b| b == b'\n').unwrap_or(rest.len())
}

// Puts a line behind the first n bytes of the output, with a newline.
fn put_line(out: &mut [u8], n: usize, text: &[u8]) -> usize
    requires { n + length text.now < length out.old }
    ensures value { result ≡ n + length text.now + 1 }
    ensures out_after { take result out.new ≡ take n out.old ++ text_of (text.now ∷ []) }
{
    let end = print::bytes(out, n, text);
    print::byte(out, end, b'\n')
}

// Puts the chosen lines into the output; answers how many bytes they are.
pub fn put(out: &mut [u8], bytes: &[u8], flags: [bool; 12]) -> usize
    requires { length bytes.now < length out.old }
    ensures upper_bound { result ≤ length out.new }
    ensures out_after { take result out.new ≡ text_of (picked flags (lines_of bytes.now)) }
{
    let mut n = 0;
    let mut at = 0;
    for chosen in flags {
        if bytes.len() <= at {
            break;
        }
        let end = line_end(bytes, at);
        if chosen {
            n = put_line(out, n, &bytes[at..end]);
        }
        at = end + 1;
    }
    n
}
