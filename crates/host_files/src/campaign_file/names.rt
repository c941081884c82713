//! Names of files: what is at a path, and whether it is still the same file.
use crate::links::real_path;
use std::fs::{self, File, OpenOptions};
use std::io::{self, ErrorKind};
use std::os::fd::AsRawFd;
use std::os::unix::fs::MetadataExt;
use std::path::Path;

// The greatest number of a standard stream.
const LAST_STREAM: i32 = 2;

/// Returns whether a file is at the path. If none is, there must be a folder for it, also where the path is a
/// link. Anything but a regular file is an error, and is not opened, because opening a named pipe would wait for a
/// writer.
pub(super) fn is_there(files: &HostRuntime, path: &str) -> io::Result<bool> {
    match fs::metadata(files, path) {
        Ok(found) if found.is_file() => Ok(true),
        Ok(_) => Err(io::Error::from(ErrorKind::Unsupported)),
        Err(error) if error.kind() == ErrorKind::NotFound => {
            has_folder(files, path)?;
            Ok(false)
        }
        Err(error) => Err(error),
    }
}

// Returns an error unless a file can be created at a path at which there is none: in its folder, or, for a link, in
// that of the file that it leads to. Takes memory only for a link.
fn has_folder(files: &HostRuntime, path: &str) -> io::Result<()> {
    if fs::symlink_metadata(files, path).is_ok() {
        let real = real_path(files, path)?;
        fs::metadata(files, folder_of(real.as_str())?)?;
    } else {
        fs::metadata(files, folder_of(path)?)?;
    }
    Ok(())
}

/// Returns whether a path leads to this file.
pub(super) fn leads_to(files: &HostRuntime, path: &str, file: &File) -> io::Result<bool> {
    let (named, open) = (fs::metadata(files, path)?, file.metadata()?);
    Ok(named.dev() == open.dev() && named.ino() == open.ino())
}

/// Opens a file. If the program was started with a closed stream, the system gives the stream's number to the
/// next file, and text for the stream would go into it. So the file is cloned to a greater number.
pub(super) fn open(files: &HostRuntime, path: &str, how: &OpenOptions) -> io::Result<File> {
    let file = how.open(files, path)?;
    if file.as_raw_fd() <= LAST_STREAM {
        file.try_clone()
    } else {
        Ok(file)
    }
}

/// Opens a file for reading.
pub(super) fn open_to_read(files: &HostRuntime, path: &str) -> io::Result<File> {
    open(files, path, OpenOptions::new().read(true))
}

/// Waits until the device has the name of the file; for a link, that of the file that it leads to.
pub(super) fn sync_name(files: &HostRuntime, path: &str) -> io::Result<()> {
    if fs::symlink_metadata(files, path)?.is_symlink() {
        let real = fs::canonicalize(files, path)?;
        sync_folder(files, folder_of(real.as_str())?)
    } else {
        sync_folder(files, folder_of(path)?)
    }
}

fn sync_folder(files: &HostRuntime, path: &str) -> io::Result<()> {
    fs::open(files, path)?.sync_all()
}

/// Returns the folder of a path.
pub(crate) fn folder_of(path: &str) -> io::Result<&str> {
    match Path::new(path).parent() {
        Some(parent) if parent.as_str().is_empty() => Ok("."),
        Some(parent) => Ok(parent.as_str()),
        None => Err(io::Error::from(ErrorKind::NotFound)),
    }
}
