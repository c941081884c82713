//! Advisory locks (`flock`) on a campaign file, by which commands exclude each other.
//!
//! A writer holds the file exclusively while it is opened or started, and shares it with readers once rows are
//! only added. So a reader that holds a shared lock knows that the file is not started again, and a second
//! writer is refused.
use std::fs::{File, TryLockError};
use std::io::{self, ErrorKind};
use std::thread;
use std::time::Duration;

// The number of tries for a lock, for a second in all, because a reader holds one while it reads, and a killed
// process until it has ended.
const TRIES: u32 = 100;

const PAUSE_MILLIS: u64 = 10;

/// How a file is held.
#[derive(Clone, Copy, PartialEq, Eq)]
pub(super) enum Lock {
    /// Nobody else holds it.
    Alone,
    /// Others may read it, and one of the holders may add rows.
    Shared,
    /// The file system has no locks.
    Unlocked,
}

fn try_once(file: &File, wanted: Lock) -> Result<(), TryLockError> {
    match wanted {
        Lock::Alone => file.try_lock(),
        Lock::Shared => file.try_lock_shared(),
        Lock::Unlocked => Ok(()),
    }
}

/// Locks a file, for which it may wait for a second. Returns how it is held now.
pub(super) fn take(files: &HostRuntime, file: &File, wanted: Lock) -> io::Result<Lock> {
    for _ in 0..TRIES {
        match try_once(file, wanted) {
            Ok(()) => return Ok(wanted),
            Err(TryLockError::Error(_)) => return Ok(Lock::Unlocked),
            Err(TryLockError::WouldBlock) => {
                thread::sleep(files, Duration::from_millis(PAUSE_MILLIS))
            }
        }
    }
    Err(io::Error::from(ErrorKind::WouldBlock))
}

/// Admits readers if the file was held exclusively.
pub(super) fn share(file: &File, held: Lock) -> io::Result<Lock> {
    match held {
        Lock::Alone => {
            file.try_lock_shared()?;
            Ok(Lock::Shared)
        }
        Lock::Shared | Lock::Unlocked => Ok(held),
    }
}

/// Shares the file if nobody holds it, and returns whether it did.
pub(super) fn share_if_free(file: &File) -> io::Result<bool> {
    match file.try_lock() {
        Ok(()) => {
            file.try_lock_shared()?;
            Ok(true)
        }
        Err(_) => Ok(false),
    }
}
