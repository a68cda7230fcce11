// What the lines print, put behind the first n bytes of the output.
ghost use Rattle.std.specs.Prelude.{◌≡◌, ◌++◌, ℕ, ◌+◌, ◌*◌, ◌≤◌, length, take, Ok};
ghost use Rattle.store.specs.declared.Answer.TheVariants.{Listed};
ghost use Rattle.store.specs.Answer.{answer_number};
ghost use Rattle.store.specs.Reading.{answer_in, value_in};
ghost use Rattle.handover.specs.Hand.{hand_number};
ghost use Rattle.answers.specs.Text.{result_text, answer_text, handed_result, handed_text, change_text, changes_text};
ghost use Rattle.answers.specs.Text.{all_are, kept_text, list_text, block_text, shown_text};

use handover::HandRefusal;
use layout::{CommitTime, TxNumber};
use script::print;
use store::{Answer, Reading, Refusal};

// 0, or the number of the refusal.
#[tactic(auto, using(crate::proofs::TextLaws::no_number), unfolding(store::specs::Answer::answer_number))]
pub fn refusal(answer: Result<Answer, Refusal>) -> u64
    ensures { result ≡ answer_number answer }
{
    match answer {
        Ok(_) => 0,
        Err(why) => print::number_of(why),
    }
}

// The last word of a call's line.
#[tactic(auto, unfolding(crate::specs::Text::result_text))]
fn put_result(out: &mut [u8], n: usize, answer: Result<Answer, Refusal>, value: [u8; 16]) -> usize
    requires { n + 32 ≤ length out.old }
    ensures upper_bound { result ≤ n + 32 }
    ensures out_after { take result out.new ≡ take n out.old ++ result_text answer value }
{
    let Ok(answer) = answer else {
        return print::byte(out, n, b'-');
    };
    match answer {
        Answer::Done => print::number(out, n, 0),
        Answer::Begun(TxNumber(x))
        | Answer::Written(x)
        | Answer::Committed(CommitTime(x))
        | Answer::Opened(CommitTime(x))
        | Answer::Listed(x) => print::number(out, n, x),
        Answer::Missing => print::bytes(out, n, b"none"),
        Answer::Erased => print::bytes(out, n, b"erased"),
        Answer::Present => print::hex(out, n, &value),
    }
}

// A call's line: its letter, 0 or the refusal, and the result.
#[tactic(auto, using(std::proofs::Common::append_assoc), unfolding(crate::specs::Text::answer_text))]
pub fn put_answer(
    out: &mut [u8],
    n: usize,
    letter: u8,
    answer: Result<Answer, Refusal>,
    value: [u8; 16],
) -> usize
    requires { n + 56 ≤ length out.old }
    ensures upper_bound { result ≤ n + 56 }
    ensures out_after { take result out.new ≡ take n out.old ++ answer_text letter answer value }
{
    let n = print::byte(out, n, letter);
    let n = print::byte(out, n, b' ');
    let n = print::number(out, n, refusal(answer));
    let n = print::byte(out, n, b' ');
    let n = put_result(out, n, answer, value);
    print::byte(out, n, b'\n')
}

// A read's line: its letter, 0 or the refusal, and what was found.
pub fn put_reading(out: &mut [u8], n: usize, letter: u8, reading: Result<Reading, Refusal>) -> usize
    requires { n + 56 ≤ length out.old }
    ensures upper_bound { result ≤ n + 56 }
    ensures out_after { take result out.new
        ≡ take n out.old ++ answer_text letter (answer_in reading) (value_in reading) }
{
    match reading {
        Ok(found) => put_answer(out, n, letter, Ok(found.answer()), found.value()),
        Err(why) => put_answer(out, n, letter, Err(why), [0; 16]),
    }
}

// 0, or the number of the refusal: the store's, or the handover's own.
#[tactic(auto, unfolding(handover::specs::Hand::hand_number))]
fn denial(handed: Result<CommitTime, HandRefusal>) -> u64
    ensures { result ≡ hand_number handed }
{
    match handed {
        Ok(_) => 0,
        Err(HandRefusal::Denied(why)) => print::number_of(why),
        Err(HandRefusal::NotOwner) => 17,
    }
}

// The last word of a handover's line.
#[tactic(auto, unfolding(crate::specs::Text::handed_result))]
fn put_time(out: &mut [u8], n: usize, handed: Result<CommitTime, HandRefusal>) -> usize
    requires { n + 20 ≤ length out.old }
    ensures upper_bound { result ≤ n + 20 }
    ensures out_after { take result out.new ≡ take n out.old ++ handed_result handed }
{
    match handed {
        Ok(time) => print::number(out, n, time.0),
        Err(_) => print::byte(out, n, b'-'),
    }
}

// A handover's line: `H`, 0 or the refusal, and the time.
#[tactic(auto, using(std::proofs::Common::append_assoc), unfolding(crate::specs::Text::handed_text))]
pub fn put_handed(out: &mut [u8], n: usize, handed: Result<CommitTime, HandRefusal>) -> usize
    requires { n + 56 ≤ length out.old }
    ensures upper_bound { result ≤ n + 56 }
    ensures out_after { take result out.new ≡ take n out.old ++ handed_text handed }
{
    let n = print::byte(out, n, b'H');
    let n = print::byte(out, n, b' ');
    let n = print::number(out, n, denial(handed));
    let n = print::byte(out, n, b' ');
    let n = put_time(out, n, handed);
    print::byte(out, n, b'\n')
}

// One line of a list of changes, from its 32 bytes.
#[tactic(auto, using(std::proofs::Common::append_assoc), unfolding(crate::specs::Text::change_text))]
fn put_change(out: &mut [u8], n: usize, bytes: &[u8]) -> usize
    requires bytes_len { length bytes.now ≡ 32 }
    requires n_in_bounds { n + 75 ≤ length out.old }
    ensures upper_bound { result ≤ n + 75 }
    ensures out_after { take result out.new ≡ take n out.old ++ change_text bytes.now }
{
    let n = print::number(out, n, fields::field::get8(bytes, 0));
    let n = print::byte(out, n, b' ');
    let n = print::number(out, n, u64::from(bytes[8]));
    let n = print::byte(out, n, b' ');
    let n = print::hex(out, n, &bytes[16..32]);
    print::byte(out, n, b'\n')
}

// The lines of a list of changes.
fn put_changes(out: &mut [u8], n: usize, count: usize, buffer: &[u8]) -> usize
    requires count_in_bounds { 32 * count ≤ length buffer.now }
    requires count_in_bounds_2 { n + 75 * count ≤ length out.old }
    ensures upper_bound { result ≤ n + 75 * count }
    ensures out_after { take result out.new ≡ take n out.old ++ changes_text count buffer.now }
{
    let mut end = n;
    for i in 0..count {
        end = put_change(out, end, &buffer[32 * i..32 * i + 32]);
    }
    end
}

// Are all bytes this one? `iter().all` stops at the first that is not, and so takes one byte at a time.
fn all_are(bytes: &[u8], byte: u8) -> bool
    ensures { result ≡ all_are byte bytes.now }
{
    let mut same = true;
    for &b in bytes {
        same &= b == byte;
    }
    same
}

// Whether the answer buffer behind a list was left as it was.
#[tactic(auto, unfolding(crate::specs::Text::kept_text))]
fn put_kept(out: &mut [u8], n: usize, kept: bool) -> usize
    requires { n + 9 ≤ length out.old }
    ensures upper_bound { result ≤ n + 9 }
    ensures out_after { take result out.new ≡ take n out.old ++ kept_text kept }
{
    if kept {
        print::bytes(out, n, b"= kept\n")
    } else {
        print::bytes(out, n, b"= spoilt\n")
    }
}

// What stands behind the line of a list's answer.
pub fn put_list(out: &mut [u8], n: usize, answer: Result<Answer, Refusal>, buffer: &[u8]) -> usize
    requires buffer_len_bound { length buffer.now ≤ 40000 }
    requires n_in_bounds { n + 93759 ≤ length out.old }
    requires by_index { (k : ℕ) → answer ≡ Ok (Listed k) → 32 * k ≤ length buffer.now }
    ensures upper_bound { result ≤ n + 93759 }
    ensures out_after { take result out.new ≡ take n out.old ++ list_text answer buffer.now }
{
    let Ok(answer) = answer else {
        return n;
    };
    let Answer::Listed(count) = answer else {
        return n;
    };
    let count = count as usize;
    let end = put_changes(out, n, count, buffer);
    let kept = all_are(&buffer[32 * count..], 170);
    put_kept(out, end, kept)
}

// A block of the bytes in hex, or a dash where there is none.
#[tactic(auto, unfolding(crate::specs::Text::block_text))]
fn put_block(out: &mut [u8], n: usize, bytes: &[u8], k: u64) -> usize
    requires { n + 1024 ≤ length out.old }
    ensures upper_bound { result ≤ n + 1024 }
    ensures out_after { take result out.new ≡ take n out.old ++ block_text bytes.now k }
{
    if k < bytes.len() as u64 / 512 {
        let at = 512 * k as usize;
        print::hex(out, n, &bytes[at..at + 512])
    } else {
        print::byte(out, n, b'-')
    }
}

// The line that shows a block.
#[tactic(auto, using(std::proofs::Common::append_assoc), unfolding(crate::specs::Text::shown_text))]
pub fn put_shown(out: &mut [u8], n: usize, letter: u8, bytes: &[u8], k: u64) -> usize
    requires { n + 1027 ≤ length out.old }
    ensures upper_bound { result ≤ n + 1027 }
    ensures out_after { take result out.new ≡ take n out.old ++ shown_text letter bytes.now k }
{
    let n = print::byte(out, n, letter);
    let n = print::byte(out, n, b' ');
    let n = put_block(out, n, bytes, k);
    print::byte(out, n, b'\n')
}
