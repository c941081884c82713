//! The file of the image, as a source.
ghost use Rattle.std.specs.Prelude.{[], ◌≡◌};

use fs_outside::{Failed, Source, rise};
use std::fs::{self, File};
use std::io::{self, ErrorKind, Read};

/// Reads a file from its beginning. The first read opens it.
#[derive(Drop)]
pub struct ImageFile<'a> {
    files: &'a HostRuntime,
    path: &'a str,
    file: Option<File>,
    faults: u64,
}

impl<'a> ImageFile<'a> {
    pub fn new(files: &'a HostRuntime, path: &'a str) -> ImageFile<'a> {
        ImageFile {
            files,
            path,
            file: None,
            faults: 0,
        }
    }

    // Reads the next bytes of the file, and opens it if necessary.
    fn read_file(&mut self, buf: &mut [u8]) -> io::Result<usize>
        ensures { self.new.faults ≡ self.old.faults }
    {
        match &mut self.file {
            Some(file) => read_again(file, buf),
            None => {
                let mut file = fs::open(self.files, self.path)?;
                let count = read_again(&mut file, buf)?;
                self.file = Some(file);
                Ok(count)
            }
        }
    }
}

/// Reads by one system call. A read that a signal interrupts is repeated.
pub(crate) fn read_again(file: &mut File, buf: &mut [u8]) -> io::Result<usize> {
    for _ in 0..u64::MAX {
        match file.read(buf) {
            Err(error) if error.kind() == ErrorKind::Interrupted => {}
            answer => return answer,
        }
    }
    Err(io::Error::from(ErrorKind::Interrupted))
}

impl Source for ImageFile<'_> {
    ghost tells = { ⊥ };

    ghost left = { λ source. [] };

    ghost faults = { λ source. source.faults };

    fn read(&mut self, buf: &mut [u8]) -> Result<usize, Failed> {
        match self.read_file(buf) {
            Ok(count) if count <= buf.len() => Ok(count),
            _ => {
                self.faults = rise(self.faults);
                Err(Failed)
            }
        }
    }
}
