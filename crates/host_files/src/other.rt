//! The other campaign file of a merge, as a source.
ghost use Rattle.std.specs.Prelude.{[], ◌≡◌};

use crate::campaign_file::SeenFile;
use crate::image::read_again;
use fs_outside::{Failed, Source, rise};
use std::fs::{self, File};
use std::io;

/// Reads a campaign file from its beginning. What another command does to it meanwhile is not mixed with what
/// was there. A pipe or a device is read as a stream.
#[derive(Drop)]
pub struct OtherFile<'a> {
    files: &'a HostRuntime,
    path: &'a str,
    // Of a longer file the whole length is returned.
    most: u64,
    at: u64,
    state: State,
    faults: u64,
}

#[derive(Drop)]
enum State {
    Uncalled,
    Seen(SeenFile),
    Stream(File),
}

impl<'a> OtherFile<'a> {
    /// Returns the file at a path for a reader that refuses more than `most` bytes. The first read opens it.
    pub fn new(files: &'a HostRuntime, path: &'a str, most: u64) -> OtherFile<'a> {
        OtherFile {
            files,
            path,
            most,
            at: 0,
            state: State::Uncalled,
            faults: 0,
        }
    }

    // Reads the next bytes of the file, and opens it if necessary.
    fn read_file(&mut self, buf: &mut [u8]) -> io::Result<usize>
        ensures { self.new.faults ≡ self.old.faults }
    {
        if let State::Uncalled = self.state {
            self.state = open(self.files, self.path, self.most)?;
        }
        match &mut self.state {
            State::Seen(file) => {
                let count = file.read_at(self.at, buf)?;
                self.at = self.at.saturating_add(count as u64);
                Ok(count)
            }
            State::Stream(file) => read_again(file, buf),
            State::Uncalled => Ok(0),
        }
    }
}

// Opens what is at a path. A missing file is an error.
fn open(files: &HostRuntime, path: &str, most: u64) -> io::Result<State> {
    if fs::metadata(files, path)?.is_file() {
        Ok(State::Seen(SeenFile::open_present(files, path, most)?))
    } else {
        Ok(State::Stream(fs::open(files, path)?))
    }
}

impl Source for OtherFile<'_> {
    ghost tells = { ⊥ };

    ghost left = { λ source. [] };

    ghost faults = { λ source. source.faults };

    fn read(&mut self, buf: &mut [u8]) -> Result<usize, Failed> {
        match self.read_file(buf) {
            Ok(count) if count <= buf.len() => Ok(count),
            _ => {
                self.faults = rise(self.faults);
                Err(Failed)
            }
        }
    }
}
