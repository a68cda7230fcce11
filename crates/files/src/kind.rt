// What a descriptor is on, and which ones a file may have.
ghost use Rattle.std.specs.Prelude.{◌≡◌};
ghost use Rattle.files.specs.Codes.{is_free};
ghost use Rattle.files.specs.Outcome.{says_regular};

use std::fs::{File, Metadata};
use std::io;

// Does what the system says mean a regular file?
fn is_said(said: io::Result<Metadata>) -> bool
    ensures { result ≡ says_regular said }
{
    said.is_ok_and(|said| said.is_file())
}

// Is it a regular file?
pub fn is_regular(file: &File) -> bool {
    is_said(file.metadata())
}

// May the file have this descriptor? The first three are those of the standard streams and `to` that of the exit code:
// one of them that was closed goes to the next file that is opened, and what is written there would go into the medium.
pub fn is_free(fd: i32, to: Option<u8>) -> bool
    ensures { result ≡ is_free fd to }
{
    fd >= 3 && to.is_none_or(|to| fd != i32::from(to))
}
