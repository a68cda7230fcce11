// A medium in a file: std's calls on an open file. Their contracts tell what a call may answer, not which bytes it
// reads or writes or what the disk then holds. So the statements here are about the answers: which outcome each has.
#![tactic(auto)]

mod failure;
pub mod folder;
mod kind;
pub mod named;
mod say;

ghost use Rattle.std.specs.Prelude.{◌≡◌, ◌≤◌, ◌<◌, length, IfOk};
ghost use Rattle.files.specs.declared.StoreError.TheVariants.{Unwritten};
ghost use Rattle.files.specs.Outcome.{is_whole, length_of, synced_of};

pub use failure::{Failure, unplayed};
pub use kind::{is_free, is_regular};
pub use say::{code, complain};
use std::fs::File;
use std::io;
use std::io::{Seek, SeekFrom};
use std::os::unix::fs::FileExt;

// Why a file was not read: it has more bytes than the buffer, or the reading failed or ended early.
#[derive(Clone, Copy, PartialEq, Eq, Debug)]
pub enum LoadError {
    TooLong,
    Failed,
}

// Why bytes are not stored: they were not all taken, or the system could not say that they are stored.
#[derive(Clone, Copy, PartialEq, Eq, Debug)]
pub enum StoreError {
    Unwritten,
    Unsynced,
}

// Did a call that was handed n bytes move them all?
fn is_whole(moved: io::Result<usize>, n: usize) -> bool
    ensures { result ≡ is_whole moved n }
{
    moved.is_ok_and(|k| k == n)
}

// What there is to read of a file that ends there.
fn length_at(end: io::Result<u64>, most: usize) -> Result<usize, LoadError>
    ensures { result ≡ length_of end most }
{
    let n = end.map_err(|_| LoadError::Failed)? as usize;
    if n <= most {
        Ok(n)
    } else {
        Err(LoadError::TooLong)
    }
}

// Reads the whole file into the front of the medium, by one read.
pub fn load(mut file: &File, medium: &mut [u8]) -> Result<usize, LoadError>
    ensures { IfOk result (λ n. n ≤ length medium.old) }
{
    let n = length_at(file.seek(SeekFrom::End(0)), medium.len())?;
    if is_whole(file.read_at(&mut medium[..n], 0), n) {
        Ok(n)
    } else {
        Err(LoadError::Failed)
    }
}

// What a sync that follows a whole write makes of it.
fn synced(answer: io::Result<()>) -> Result<(), StoreError>
    ensures { result ≡ synced_of answer }
{
    answer.map_err(|_| StoreError::Unsynced)
}

// Writes the bytes to their place by one write.
fn write(file: &File, bytes: &[u8], at: u64) -> Result<(), StoreError> {
    if is_whole(file.write_at(bytes, at), bytes.len()) {
        Ok(())
    } else {
        Err(StoreError::Unwritten)
    }
}

// Writes the bytes to their place by one write, and waits until they are stored.
pub fn store(file: &File, bytes: &[u8], at: u64) -> Result<(), StoreError> {
    write(file, bytes, at)?;
    synced(file.sync_data())
}

// Sets the file's length, once its first block is zeros: a file that no opening accepts, whatever stood there before.
fn blank(file: &File, n: u64) -> Result<(), StoreError> {
    write(file, &[0; 512], 0)?;
    file.set_len(n).map_err(|_| StoreError::Unwritten)?;
    synced(file.sync_data())
}

// Makes the file hold the medium, its first block last: as long as that is zeros, no opening accepts the file. A medium
// has a first block, so fewer bytes are not written.
pub fn make(file: &File, medium: &[u8]) -> Result<(), StoreError>
    ensures { length medium.now < 512 → result ≡ Err Unwritten }
{
    let Some((first, rest)) = medium.split_at_checked(512) else {
        return Err(StoreError::Unwritten);
    };
    blank(file, medium.len() as u64)?;
    store(file, rest, 512)?;
    store(file, first, 0)
}
