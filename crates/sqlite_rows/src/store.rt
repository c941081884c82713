//! A table of a database, as a store of rows.
ghost use Rattle.std.specs.Prelude.{◌≡◌, ◌↔◌, [], IsTrue};
ghost use Rattle.sqlite.specs.declared.error.Error.TheVariants.{SqliteFailure};
ghost use Rattle.sqlite.specs.declared.error.ErrorCode.TheVariants.{OutOfMemory};

use crate::log::Log;
use crate::table::replace;
use fs_outside::rise;
use host_files::real_path;
use row_store::{ExportRow, RowStore, StoreRefusal};
use sqlite::{Connection, Error, ErrorCode, MemStore, Unknown};
use std::alloc::Global;
use std::io::ErrorKind;

// The path that means a database in memory.
const MEMORY: &str = ":memory:";

/// The table `jobs` of a database. The first call opens it.
///
/// A file is opened, written and closed in each call, in one transaction, so sqlite3 can read it, and after a
/// refusal the table is as before. A file that is not a database, or a table `jobs` that was created by another
/// statement, is left unchanged. A database in memory stays open.
#[derive(Drop)]
pub struct SqliteStore<'a> {
    files: &'a HostRuntime,
    path: &'a str,
    memory: Option<Connection<MemStore>>,
    faults: u64,
}

impl<'a> SqliteStore<'a> {
    /// Returns the table of the database at a path, or, for the path `:memory:`, of one in memory.
    pub fn new(files: &'a HostRuntime, path: &'a str) -> SqliteStore<'a> {
        SqliteStore {
            files,
            path,
            memory: None,
            faults: 0,
        }
    }
}

impl RowStore for SqliteStore<'_> {
    ghost tells = { ⊥ };

    ghost rows = { λ store. [] };

    ghost faults = { λ store. store.faults };

    fn replace_all(&mut self, alloc: Global, list: &[ExportRow]) -> Result<(), StoreRefusal> {
        let done = if self.path == MEMORY {
            replace_in_memory(&mut self.memory, alloc, list)
        } else {
            replace_in_file(self.files, self.path, alloc, list)
        };
        match done {
            Ok(()) => Ok(()),
            Err(error) if is_memory(error) => Err(StoreRefusal::NoMemory),
            Err(_) => {
                self.faults = rise(self.faults);
                Err(StoreRefusal::Failed)
            }
        }
    }
}

// Returns whether the error is a lack of memory.
fn is_memory(error: Error) -> bool
    ensures { IsTrue result ↔ (error ≡ SqliteFailure OutOfMemory) }
{
    matches!(error, Error::SqliteFailure(ErrorCode::OutOfMemory))
}

// The first call creates a database in memory.
fn replace_in_memory(
    memory: &mut Option<Connection<MemStore>>,
    alloc: Global,
    rows: &[ExportRow],
) -> Result<(), Error> {
    if memory.is_none() {
        *memory = Some(Connection::open_in_memory(alloc)?);
    }
    match memory {
        Some(conn) => replace(conn, alloc, rows),
        None => Ok(()),
    }
}

// Writes the rows to the file. They are stored once they are committed: a log that cannot be copied into the
// file stays next to it, and sqlite3 reads both. A file that is refused gets no log.
fn replace_in_file(
    files: &HostRuntime,
    path: &str,
    alloc: Global,
    rows: &[ExportRow],
) -> Result<(), Error> {
    let real = match real_path(files, path) {
        Ok(real) => real,
        Err(error) if error.kind() == ErrorKind::OutOfMemory => {
            return Err(Error::SqliteFailure(ErrorCode::OutOfMemory));
        }
        Err(_) => return Err(Error::SqliteFailure(ErrorCode::CannotOpen)),
    };
    let path = real.as_str();
    let log = Log::of(files, alloc, path)?;
    let mut conn = match Connection::open_from(files, path, false, Unknown) {
        Ok(conn) => conn,
        Err((error, left)) => {
            // `left` still holds the lock on the file.
            if left.is_some() {
                log.take_away(files);
            }
            return Err(error);
        }
    };
    match replace(&mut conn, alloc, rows) {
        Ok(()) => {
            let _ = conn.close();
            Ok(())
        }
        Err(error) => {
            log.take_away(files);
            Err(error)
        }
    }
}
