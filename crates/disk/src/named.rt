// The sizes that a file names.
ghost use Rattle.std.specs.Prelude.{◌≡◌, ◌≤◌, length};
ghost use Rattle.disk.specs.Named.{named_by};

use rooms::parts::Standing;

// A room whose medium is the first so many bytes, shut, with the sizes that they name.
#[tactic(auto, unfolding(crate::specs::Named::named_by))]
pub fn named(medium: &[u8], bytes: usize) -> Standing
    requires { bytes ≤ length medium.now }
    ensures { result ≡ named_by medium.now bytes }
{
    let (blocks, pages) = if bytes < 512 {
        (0, 0)
    } else {
        (
            fields::field::get2(medium, 3),
            fields::field::get2(medium, 8),
        )
    };
    Standing {
        stage: 2,
        blocks: blocks,
        pages: pages,
        bytes: bytes,
    }
}
