//! A campaign file that may be written to, locked from before its first read until it is closed.
use super::gates::{closed_gate, end_of};
use super::left::Left;
use super::limits::longest;
use super::locks::{Lock, share, take};
use super::names::{is_there, leads_to, open, open_to_read, sync_name};
use super::read_within;
use std::fs::{File, OpenOptions};
use std::io::{self, ErrorKind};
use std::os::unix::fs::FileExt;

// A write from this offset on adds rows; earlier writes start the file.
const ROWS: u64 = 2;

/// An open file, and the state in which it was left.
#[derive(Drop)]
pub(super) struct HeldFile<'a> {
    files: &'a HostRuntime,
    path: &'a str,
    image: &'a str,
    file: File,
    // Whether it was opened for writing.
    writable: bool,
    // Whether its first write was permitted.
    written: bool,
    lock: Lock,
    // The length that `len` returned.
    told: u64,
    left: Left,
    // The greatest length that it may reach.
    longest: u64,
}

impl<'a> HeldFile<'a> {
    /// Opens and locks the file at a path, and creates it if it is missing. Opens it for reading if it may only
    /// be read.
    pub(super) fn open(
        files: &'a HostRuntime,
        path: &'a str,
        image: &'a str,
    ) -> io::Result<HeldFile<'a>> {
        let (file, writable) = open_widest(files, path)?;
        if !file.metadata()?.is_file() {
            return Err(io::Error::from(ErrorKind::Unsupported));
        }
        let lock = take(files, &file, Lock::Alone)?;
        if !leads_to(files, path, &file)? {
            return Err(io::Error::from(ErrorKind::ResourceBusy));
        }
        let left = Left::of(&file)?;
        Ok(HeldFile {
            files,
            path,
            image,
            file,
            writable,
            written: false,
            lock,
            told: left.len(),
            left,
            longest: longest(files),
        })
    }

    /// Returns the number of bytes up to the first closed gate, or of all if there is none.
    pub(super) fn len(&mut self) -> io::Result<u64> {
        let len = self.file.metadata()?.len();
        let gate = closed_gate(&self.file, len)?;
        self.left.grow_behind(gate);
        self.told = gate.map_or(len, end_of);
        Ok(self.told)
    }

    /// Returns the number of rows that this command has added.
    pub(super) fn added(&self) -> u64 {
        self.left.opened()
    }

    /// Reads by one system call.
    pub(super) fn read_at(&self, at: u64, buf: &mut [u8]) -> io::Result<usize> {
        read_within(&self.file, self.told, at, buf)
    }

    /// Writes all bytes.
    pub(super) fn write_at(&mut self, at: u64, bytes: &[u8]) -> io::Result<()> {
        self.admit()?;
        if at >= ROWS {
            self.lock = share(&self.file, self.lock)?;
        }
        if at.saturating_add(bytes.len() as u64) > self.longest {
            return Err(io::Error::from(ErrorKind::FileTooLarge));
        }
        self.left.see(&self.file)?;
        self.file.write_all_at(bytes, at)?;
        self.left.note(&self.file, at, bytes)
    }

    /// Waits until the device has all bytes. The name must still lead to the file that was written.
    pub(super) fn sync(&self) -> io::Result<()> {
        self.file.sync_data()?;
        if self.written && !leads_to(self.files, self.path, &self.file)? {
            return Err(io::Error::from(ErrorKind::NotFound));
        }
        Ok(())
    }

    // Before the first byte is written, the file's name is synced, whoever created it. The image is not written
    // to.
    fn admit(&mut self) -> io::Result<()> {
        if self.written {
            return Ok(());
        }
        let is_image = matches!(leads_to(self.files, self.image, &self.file), Ok(true));
        if is_image || !self.writable {
            return Err(io::Error::from(ErrorKind::PermissionDenied));
        }
        sync_name(self.files, self.path)?;
        self.written = true;
        Ok(())
    }
}

// Opens a file for reading and writing, or only for reading if no more is permitted.
fn open_widest(files: &HostRuntime, path: &str) -> io::Result<(File, bool)> {
    let there = is_there(files, path)?;
    let mut how = OpenOptions::new();
    how.read(true).write(true).create(!there);
    match open(files, path, &how) {
        Ok(file) => Ok((file, true)),
        Err(error) if there && is_forbidden(error.kind()) => {
            Ok((open_to_read(files, path)?, false))
        }
        Err(error) => Err(error),
    }
}

fn is_forbidden(kind: ErrorKind) -> bool {
    matches!(
        kind,
        ErrorKind::PermissionDenied | ErrorKind::ReadOnlyFilesystem
    )
}
