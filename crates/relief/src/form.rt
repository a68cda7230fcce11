// A room in the bytes of the input, and in those of the output.
#![tactic(auto, unfolding(crate::specs::Form::sizes_of, crate::specs::Form::tail_in, crate::specs::Form::room_bytes, fields::specs::Part::part))]

ghost use Rattle.std.specs.Prelude.{◌≡◌, ◌++◌, ◌+◌, ◌*◌, ◌≤◌, length, take, IfSome};
ghost use Rattle.fields.specs.Field.{enc};
ghost use Rattle.fields.specs.Cells.{flat};
ghost use Rattle.relief.specs.Form.{sizes_of, words_in, tail_in, room_bytes};

use fields::field;
use script::print;

// How long medium and cache are.
#[derive(Clone, Copy)]
pub struct Sizes {
    pub medium: usize,
    pub cache: usize,
}

// The sizes of a room, from the bytes in front of its medium; none where the program does not take such a room.
pub fn read_sizes(head: &[u8; 4112]) -> Option<Sizes>
    ensures bound { IfSome result (λ sizes. (sizes.medium ≤ 50688) × (sizes.cache ≤ 32768)) }
    ensures value { result ≡ sizes_of head.now }
{
    let medium = field::get8(head, 0);
    let cache = field::get8(head, 8);
    if medium > 50688 || cache > 32768 {
        return None;
    }
    Some(Sizes {
        medium: medium as usize,
        cache: cache as usize,
    })
}

// The words of its state, from there.
pub fn read_words(head: &[u8; 4112]) -> [u64; 448]
    ensures { result ≡ words_in head.now }
{
    let mut words = [0; 448];
    for (i, word) in words.iter_mut().enumerate() {
        *word = field::get8(head, 16 + 8 * i);
    }
    words
}

// Its tail.
pub fn read_tail(head: &[u8; 4112]) -> [u8; 512]
    ensures { result ≡ tail_in head.now }
{
    let mut tail = [0; 512];
    tail.copy_from_slice(&head[3600..]);
    tail
}

#[tactic(auto, using(crate::proofs::FormLaws::put_number))]
// Puts a number of 8 bytes behind the first n of the output.
fn put_number(out: &mut [u8], n: usize, x: u64) -> usize
    requires { n + 8 ≤ length out.old }
    ensures value { result ≡ n + 8 }
    ensures out_after { take result out.new ≡ take n out.old ++ enc 8 x }
{
    field::put8(out, n, x);
    n + 8
}

#[tactic(auto, using(crate::proofs::FormLaws::flat_turn, std::proofs::Common::append_assoc))]
// Puts the words of a state behind the first n bytes.
fn put_words(out: &mut [u8], n: usize, words: &[u64; 448]) -> usize
    requires { n + 8 * length words.now ≤ length out.old }
    ensures value { result ≡ n + 8 * length words.now }
    ensures out_after { take result out.new ≡ take n out.old ++ flat (enc 8) words.now }
{
    let mut end = n;
    for &word in words {
        end = put_number(out, end, word);
    }
    end
}

// Puts a room behind the first n bytes.
pub fn put_room(
    out: &mut [u8],
    n: usize,
    words: &[u64; 448],
    tail: &[u8; 512],
    medium: &[u8],
    cache: &[u8],
) -> usize
    requires { n + (4112 + (length medium.now + length cache.now)) ≤ length out.old }
    ensures value { result ≡ n + (4112 + (length medium.now + length cache.now)) }
    ensures out_after { take result out.new ≡ take n out.old ++ room_bytes words.now tail.now medium.now cache.now }
{
    let n = put_number(out, n, medium.len() as u64);
    let n = put_number(out, n, cache.len() as u64);
    let n = put_words(out, n, words);
    let n = print::bytes(out, n, tail);
    let n = print::bytes(out, n, medium);
    print::bytes(out, n, cache)
}
