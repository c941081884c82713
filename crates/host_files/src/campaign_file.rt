//! The campaign file, made to be read or to be appended to, and opened by its first call: a reader asks for the
//! length first, and a writer syncs first.
//!
//! A reader needs no permission to write, does not wait for others and creates no file. Two writers of one file
//! exclude each other.
mod gates;
mod held;
mod left;
mod limits;
mod locks;
mod names;
mod seen;

use held::HeldFile;
pub(crate) use seen::SeenFile;
use std::fs::File;
use std::io::{self, ErrorKind};
use std::os::unix::fs::FileExt;

/// A path, and the state of the file there.
#[derive(Drop)]
pub struct CampaignFile<'a> {
    files: &'a HostRuntime,
    path: &'a str,
    state: State<'a>,
}

#[derive(Drop)]
enum State<'a> {
    // To be read, and not opened yet.
    Unseen,
    Seen(SeenFile),
    // To be appended to, and not opened yet. The image, at its own path, is never written to.
    Unheld { image: &'a str },
    Held(HeldFile<'a>),
    // A sync failed. The system may have dropped what it could not write, and a later sync that succeeds would
    // not report that, so none is tried.
    Lost,
}

impl<'a> CampaignFile<'a> {
    /// Returns the file at a path, to be read.
    pub fn to_read(files: &'a HostRuntime, path: &'a str) -> CampaignFile<'a> {
        CampaignFile {
            files,
            path,
            state: State::Unseen,
        }
    }

    /// Returns the file at a path, to be appended to. The image, at its own path, is never written to.
    pub fn to_append(files: &'a HostRuntime, path: &'a str, image: &'a str) -> CampaignFile<'a> {
        CampaignFile {
            files,
            path,
            state: State::Unheld { image },
        }
    }

    /// Returns the number of bytes up to the first closed gate, after which no row follows; 0 if the file is
    /// missing.
    pub fn len(&mut self) -> io::Result<u64> {
        if let State::Unseen = self.state {
            self.state = State::Seen(SeenFile::open(self.files, self.path)?);
        }
        match &mut self.state {
            State::Seen(file) => Ok(file.len()),
            State::Held(file) => file.len(),
            State::Unseen | State::Unheld { .. } | State::Lost => {
                Err(io::Error::from(ErrorKind::Other))
            }
        }
    }

    /// Reads by one system call: as many bytes as that returns, and 0 at the end of the length that `len`
    /// returned. It is an error if the file ends before.
    pub fn read_at(&mut self, at: u64, buf: &mut [u8]) -> io::Result<usize> {
        match &mut self.state {
            State::Seen(file) => file.read_at(at, buf),
            State::Held(file) => file.read_at(at, buf),
            State::Unseen | State::Unheld { .. } | State::Lost => {
                Err(io::Error::from(ErrorKind::Other))
            }
        }
    }

    /// Writes all bytes. An error may come after some of them were written.
    pub fn write_at(&mut self, at: u64, bytes: &[u8]) -> io::Result<()> {
        match &mut self.state {
            State::Held(file) => file.write_at(at, bytes),
            State::Unseen | State::Seen(_) | State::Unheld { .. } | State::Lost => {
                Err(io::Error::from(ErrorKind::Other))
            }
        }
    }

    /// Returns the number of rows added since the file was opened.
    pub fn added(&self) -> u64 {
        match &self.state {
            State::Held(file) => file.added(),
            State::Unseen | State::Seen(_) | State::Unheld { .. } | State::Lost => 0,
        }
    }

    /// Waits until the device has all bytes, including those that an earlier process had not synced.
    pub fn sync(&mut self) -> io::Result<()> {
        if let State::Unheld { image } = self.state {
            self.state = State::Held(HeldFile::open(self.files, self.path, image)?);
        }
        let answer = match &mut self.state {
            State::Held(file) => file.sync(),
            State::Unseen | State::Seen(_) | State::Unheld { .. } | State::Lost => {
                Err(io::Error::from(ErrorKind::Other))
            }
        };
        if answer.is_err() {
            self.state = State::Lost;
        }
        answer
    }
}

// A read that a signal interrupts is repeated.
fn read_again(file: &File, at: u64, buf: &mut [u8]) -> io::Result<usize> {
    for _ in 0..u64::MAX {
        match file.read_at(buf, at) {
            Err(error) if error.kind() == ErrorKind::Interrupted => {}
            answer => return answer,
        }
    }
    Err(io::Error::from(ErrorKind::Interrupted))
}

// Reads at a place where a byte must follow, because `len` returned a greater length.
fn read_within(file: &File, told: u64, at: u64, buf: &mut [u8]) -> io::Result<usize> {
    let count = read_again(file, at, buf)?;
    if count == 0 && at < told && !buf.is_empty() {
        return Err(io::Error::from(ErrorKind::UnexpectedEof));
    }
    Ok(count)
}
