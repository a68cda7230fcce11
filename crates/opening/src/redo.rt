// Redo: the logged versions that the pages lack.
ghost use Rattle.std.specs.Prelude.{◌≡◌, true, ◌+◌, ◌*◌, ◌<◌, ◌≤◌, ◌%◌, length, eqb};
ghost use Rattle.fields.specs.Block.{blk, page_of};
ghost use Rattle.layout.specs.Page.{page_used, put_version};
ghost use Rattle.store.specs.Write.{cell_for};
ghost use Rattle.store.specs.OpenRedo.{applies, redo};
ghost use Rattle.conditions.specs.Cursor.{Ready, Valid, rest_of};
ghost use Rattle.conditions.specs.Lookup.{slots_below};
ghost use Rattle.conditions.specs.Passes.{redo_ok};

use conditions::cursor::{Cursor, Step};
use layout::EndPlace;
use layout::item::VersionHead;

// Is the record's end place above its page's?
fn must_apply(cache: &[u8], head: VersionHead, end: EndPlace) -> bool
    requires { 512 * page_of head.slot + 512 ≤ length cache.now }
    ensures { result ≡ applies cache.now head end.0 }
{
    let start = (512 * (head.slot / 15)) as usize;
    layout::page::end(&cache[start..start + 512]).0 < end.0
}

// Is its slot the next one of its page?
fn is_next(cache: &[u8], head: VersionHead) -> bool
    requires { 512 * page_of head.slot + 512 ≤ length cache.now }
    ensures { result ≡ eqb (head.slot % 15) (page_used (blk cache.now (page_of head.slot))) }
{
    let start = (512 * (head.slot / 15)) as usize;
    head.slot % 15 == u64::from(layout::page::used(&cache[start..start + 512]))
}

// Puts the version into its slot.
fn apply(cache: &mut [u8], head: VersionHead, end: EndPlace, value: &[u8])
    requires slot_bound { head.slot < 960 }
    requires slot_in_bounds { 512 * page_of head.slot + 512 ≤ length cache.old }
    requires value_len { length value.now ≡ 16 }
    ensures { cache.new ≡ put_version cache.old head.slot end.0 (cell_for head value.now) }
{
    layout::page::put_version(
        cache,
        head.slot,
        end,
        head.number,
        head.key,
        head.kind,
        head.earlier,
        value,
    );
}

// Applies the version records from the cursor on, and notes for each page the block of the first applied. Answers
// whether every one stood in the next slot of its page.
pub fn run(
    medium: &[u8],
    blocks: u64,
    pages: u64,
    from: Cursor,
    cache: &mut [u8],
    first: &mut [u64; 64],
) -> bool
    requires ready { Ready blocks (length medium.now) }
    requires valid { Valid from }
    requires pages_bound { (pages ≤ 64) × (length cache.old ≡ 512 * pages) }
    requires from_value { slots_below pages (rest_of medium.now blocks from) ≡ true }
    ensures { (result ≡ redo_ok (record { cache = cache.old; first = first.old }) (rest_of medium.now blocks from)) × (result ≡ true → record { cache = cache.new; first = first.new } ≡ redo (record { cache = cache.old; first = first.old }) (rest_of medium.now blocks from)) }
{
    let mut cursor = from;
    loop {
        let sequence = cursor.sequence;
        match conditions::cursor::next(medium, blocks, cursor) {
            Step::Done => return true,
            Step::Skip(next) => cursor = next,
            Step::Written(head, value, end, next) => {
                if must_apply(cache, head, end) {
                    if !is_next(cache, head) {
                        return false;
                    }
                    let value = value as usize;
                    apply(cache, head, end, &medium[value..value + 16]);
                    memory::touch(first, (head.slot / 15) as usize, sequence);
                }
                cursor = next;
            }
            Step::Committed(_, _, next) => cursor = next,
        }
    }
}
