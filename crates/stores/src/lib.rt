// The calls that store a block, one public function each, and which of them comes next out of a full log. None asks anything
// of its caller: each answers for every input, and what it leaves is equated with its definition in `store`.
#![tactic(auto)]

pub mod checkpoint;
pub mod relief;
pub mod store_log;
pub mod store_page;

ghost use Rattle.std.specs.Prelude.{◌≡◌, ◌+◌, ◌≤◌, ◌*◌, length};
ghost use Rattle.fields.specs.Block.{blk};

// Block k of a medium, or page k of a cache.
#[tactic(auto, using(fields::proofs::PartLaws::lent_part, fields::proofs::PartLaws::lent_length), unfolding(fields::specs::Block::blk))]
fn block(bytes: &[u8], k: usize) -> &[u8]
    requires { 512 * k + 512 ≤ length bytes.now }
    ensures size { length result.now ≡ 512 }
    ensures value { result.now ≡ blk bytes.now k }
{
    let at = 512 * k;
    &bytes[at..at + 512]
}
