// The folder of a file: a new file's name is stored there.
ghost use Rattle.std.specs.Prelude.{◌≡◌, ◌≤◌, length};
ghost use Rattle.files.specs.Folder.{folder_length};

use crate::{StoreError, named, synced};
use std::fs::File;
use std::io;
use std::rt::Files;

// How many bytes of a file's name are its folder's, the slash among them; none where it names no folder.
fn length(name: &[u8]) -> usize
    ensures upper_bound { result ≤ length name.now }
    ensures value { result ≡ folder_length name.now }
{
    match name.iter().rposition(|&b| b == b'/') {
        Some(slash) => slash + 1,
        None => 0,
    }
}

// Opens the folder.
fn open(files: &impl Files<File = File>, name: &[u8]) -> io::Result<File> {
    match length(name) {
        0 => named::open_read(files, b"."),
        n => named::open_read(files, &name[..n]),
    }
}

// Waits until the names of its files are stored. Of a folder that may not be opened nobody can say so.
pub fn sync(files: &impl Files<File = File>, name: &[u8]) -> Result<(), StoreError> {
    let folder = open(files, name).map_err(|_| StoreError::Unsynced)?;
    synced(folder.sync_all())
}
