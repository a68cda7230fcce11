// The calls on a file's name. A name is bytes, and std's calls take text: one that is no text names no file here.
use std::fs::{File, OpenOptions};
use std::rt::Files;
use std::{fs, io, str};

// The name as text.
fn text(name: &[u8]) -> io::Result<&str> {
    str::from_utf8(name).map_err(|_| io::Error::from(io::ErrorKind::InvalidFilename))
}

// Opens what is there for reading.
pub fn open_read(files: &impl Files<File = File>, name: &[u8]) -> io::Result<File> {
    fs::open(files, text(name)?)
}

// Opens the file for reading and writing, and leaves its bytes as they are.
pub fn open_update(files: &impl Files<File = File>, name: &[u8]) -> io::Result<File> {
    OpenOptions::new()
        .read(true)
        .write(true)
        .open(files, text(name)?)
}

// Makes the file, for writing. It fails where the name is taken, and where it is a link that leads nowhere.
pub fn create(files: &impl Files<File = File>, name: &[u8]) -> io::Result<File> {
    OpenOptions::new()
        .write(true)
        .create_new(true)
        .open(files, text(name)?)
}

// Takes the name away again.
pub fn remove(files: &impl Files<File = File>, name: &[u8]) -> io::Result<()> {
    fs::remove_file(files, text(name)?)
}
