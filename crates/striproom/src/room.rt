// The file that holds the medium.
ghost use Rattle.std.specs.Prelude.{◌≡◌, ◌≤◌, length, IfOk, IfSome};
ghost use Rattle.striproom.specs.File.{Apart, IsApart};

use files::{Failure, named};
use std::fs::File;
use std::os::fd::AsRawFd;
use std::rt::Files;

// Opens the file, unless it is missing, and reads it into the front of the medium: the file and its length.
pub fn open(
    rt: &impl Files<File = File>,
    name: &[u8],
    to: Option<u8>,
    medium: &mut [u8],
) -> Result<Option<(File, usize)>, Failure>
    ensures bytes_in_bounds { IfOk result (λ opened. IfSome opened (λ found. found.1 ≤ length medium.old)) }
    ensures apart { IfOk result (λ opened. IfSome opened (λ found. IsApart to found.0)) }
{
    match named::open_update(rt, name) {
        Ok(file) => {
            let n = read(&file, to, medium)?;
            Ok(Some((file, n)))
        }
        Err(error) => match Failure::of_opening(error) {
            Some(failure) => Err(failure),
            None => Ok(None),
        },
    }
}

// Reads the file that is open.
fn read(file: &File, to: Option<u8>, medium: &mut [u8]) -> Result<usize, Failure>
    ensures bytes_in_bounds { IfOk result (λ n. n ≤ length medium.old) }
    ensures apart { IfOk result (λ n. IsApart to file.now) }
{
    if !files::is_free(file.as_raw_fd(), to) {
        return Err(Failure::Usage);
    }
    if !files::is_regular(file) {
        return Err(Failure::NotRegular);
    }
    Ok(files::load(file, medium)?)
}

// Makes a file that is missing, and keeps it if its descriptor is free.
fn create(rt: &impl Files<File = File>, name: &[u8], to: Option<u8>) -> Result<File, Failure>
    ensures { IfOk result (IsApart to) }
{
    let file = named::create(rt, name).map_err(|_| Failure::Inaccessible)?;
    if !files::is_free(file.as_raw_fd(), to) {
        let _ = named::remove(rt, name);
        return Err(Failure::Usage);
    }
    Ok(file)
}

// The file for a formatting: the one that is open, or a new one.
pub fn have(
    rt: &impl Files<File = File>,
    name: &[u8],
    to: Option<u8>,
    file: Option<File>,
) -> Result<File, Failure>
    ensures { Apart to file → IfOk result (IsApart to) }
{
    match file {
        Some(file) => Ok(file),
        None => create(rt, name, to),
    }
}
