//! The log that the database library creates next to a file, `NAME-wal`.
use std::alloc::{AllocError, Global};
use std::fs;

// The lengths of the log's header, of a frame's header and of the smallest page. A shorter log has no commit.
const LOG_HEADER: u64 = 32;

const FRAME_HEADER: u64 = 24;

const LEAST_PAGE: u64 = 512;

/// The log of a database file, and whether only a refused call created it.
#[derive(Drop)]
pub(crate) struct Log {
    path: String,
    // The file existed and had content, and the log did not exist.
    is_new: bool,
}

impl Log {
    /// Returns the log of the file at a path, which has not been opened yet.
    pub(crate) fn of(files: &HostRuntime, alloc: Global, path: &str) -> Result<Log, AllocError> {
        let log = format!(in alloc; "{path}-wal")?;
        let has_content = match fs::metadata(files, path) {
            Ok(found) => found.len() > 0,
            Err(_) => false,
        };
        let is_new = has_content && fs::symlink_metadata(files, &log).is_err();
        Ok(Log { path: log, is_new })
    }

    /// Removes what an open created, if it has no commit. The file must still be locked, so that no other
    /// program has begun to write to the log.
    pub(crate) fn take_away(&self, files: &HostRuntime) {
        let Ok(found) = fs::symlink_metadata(files, &self.path) else {
            return;
        };
        let is_blank = found.len() < LOG_HEADER + FRAME_HEADER + LEAST_PAGE;
        if self.is_new && found.is_file() && is_blank {
            let _ = fs::remove_file(files, &self.path);
        }
    }
}
