// What goes wrong outside, each with its exit code and its message.
ghost use Rattle.std.specs.Prelude.{◌≡◌, ◌≤◌, length};
ghost use Rattle.std.specs.IoError.{raw_os_error};
ghost use Rattle.files.specs.Codes.{
  failure_code,
  load_failure,
  message_of,
  opening_failure,
  store_failure,
  unplayed_of,
};

use crate::{LoadError, StoreError, say};
use std::fs::File;
use std::io;
use std::io::Print;

// The errors of the system that a missing file and a directory give.
const ENOENT: i32 = 2;

const EISDIR: i32 = 21;

// A failure's number is its exit code.
#[derive(Clone, Copy, PartialEq, Eq, Debug)]
pub enum Failure {
    Usage = 2,
    Missing = 3,
    NotRegular = 4,
    Inaccessible = 5,
    TooLong = 6,
    Unread = 7,
    Unwritten = 8,
    Unsynced = 9,
}

impl Failure {
    // The opening of a file failed. That it is missing is no failure yet: a first line may make it. An error without a
    // number is not the system's: the name is no text.
    pub fn of_opening(error: io::Error) -> Option<Failure>
        ensures { result ≡ opening_failure (raw_os_error error) }
    {
        match error.raw_os_error() {
            Some(ENOENT) => None,
            Some(EISDIR) => Some(Failure::NotRegular),
            _ => Some(Failure::Inaccessible),
        }
    }

    pub fn code(self) -> u8
        ensures { result ≡ failure_code self }
    {
        self as u8
    }

    // What it says of the file. How to use the program is said elsewhere.
    fn message(self) -> &'static [u8]
        ensures { result.now ≡ message_of self }
    {
        match self {
            Failure::Usage => b"",
            Failure::Missing => b"no such file",
            Failure::NotRegular => b"not a regular file",
            Failure::Inaccessible => b"not readable or writable",
            Failure::TooLong => b"no medium is that long",
            Failure::Unread => b"not read",
            Failure::Unwritten => b"not written: the next opening finds what is stored",
            Failure::Unsynced => b"not stored: the next opening finds what is stored",
        }
    }

    // Says it of the file, on standard error.
    pub fn say(self, err: &impl Print, name: &[u8]) {
        say::complain(err, name, self.message());
    }
}

impl From<LoadError> for Failure {
    ghost from_gives = { λ e r. r ≡ load_failure e };

    fn from(error: LoadError) -> Failure {
        match error {
            LoadError::TooLong => Failure::TooLong,
            LoadError::Failed => Failure::Unread,
        }
    }
}

impl From<StoreError> for Failure {
    ghost from_gives = { λ e r. r ≡ store_failure e };

    fn from(error: StoreError) -> Failure {
        match error {
            StoreError::Unwritten => Failure::Unwritten,
            StoreError::Unsynced => Failure::Unsynced,
        }
    }
}

// A line that is not played ends the run; without a file it is an error.
pub fn unplayed(file: &Option<File>) -> Result<(), Failure>
    ensures { result ≡ unplayed_of file.now }
{
    if file.is_some() {
        Ok(())
    } else {
        Err(Failure::Missing)
    }
}
