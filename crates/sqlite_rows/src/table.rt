//! Creating and filling the table of a database.
ghost use Rattle.std.specs.Prelude.{◌<◌};

use row_store::ExportRow;
use sqlite::types::{ToSql, ValueRef};
use sqlite::{Alter, Connection, Error, ErrorCode, Statement, Transaction, params};
use std::alloc::{AllocError, Global};

// The statement as sqlite3 stores it. The table has no other columns and no other key.
const TABLE: &str =
    "CREATE TABLE jobs (cycle INTEGER NOT NULL, cell INTEGER NOT NULL, bit INTEGER NOT NULL, \
    weight INTEGER NOT NULL, outcome TEXT NOT NULL, PRIMARY KEY (cycle, cell, bit))";

const OWN: &str = "SELECT count(*) FROM sqlite_schema WHERE name = 'jobs' AND sql = ?1";

// This frees pages, whereas DELETE would read all rows and keep each in memory.
const DROP: &str = "DROP TABLE jobs";

const ROW: &str = "INSERT INTO jobs VALUES (?, ?, ?, ?, ?)";

// A statement of eight rows takes two thirds of the time of eight statements; longer ones gain little.
const BATCH: usize = 8;

const ROWS: &str =
    "INSERT INTO jobs VALUES (?, ?, ?, ?, ?), (?, ?, ?, ?, ?), (?, ?, ?, ?, ?), (?, ?, ?, ?, ?), \
    (?, ?, ?, ?, ?), (?, ?, ?, ?, ?), (?, ?, ?, ?, ?), (?, ?, ?, ?, ?)";

/// Replaces the table `jobs` by one with these rows, in one transaction. Indexes that others made on the old one
/// are dropped with it. A table that was created by another statement is refused.
pub(crate) fn replace<S: Alter>(
    conn: &mut Connection<S>,
    alloc: Global,
    rows: &[ExportRow],
) -> Result<(), Error> {
    if !conn.is_autocommit() {
        return Err(Error::SqliteFailure(ErrorCode::TransactionState));
    }
    let mut tx = conn.transaction();
    begin(&mut tx)?;
    put_rows(&mut tx, alloc, rows)?;
    tx.commit()
}

// Returns whether the table exists and was created by this statement.
fn is_there<S: Alter>(tx: &mut Transaction<'_, S>) -> Result<bool, Error> {
    let count: u32 = tx.query_row(OWN, params![TABLE])?.get(0)?;
    Ok(count > 0)
}

// Creates the table, without rows, and drops an existing one first. Fails if a table created by another
// statement has the name.
fn begin<S: Alter>(tx: &mut Transaction<'_, S>) -> Result<(), Error> {
    if is_there(tx)? {
        tx.execute(DROP, &[])?;
    }
    tx.execute(TABLE, &[])?;
    Ok(())
}

// Inserts full batches first, and then the other rows one by one.
fn put_rows<S: Alter>(
    tx: &mut Transaction<'_, S>,
    alloc: Global,
    rows: &[ExportRow],
) -> Result<(), Error> {
    let (full, rest) = rows.split_at(rows.len() - rows.len() % BATCH);
    put_by(tx, alloc, ROWS, BATCH, full)?;
    put_by(tx, alloc, ROW, 1, rest)
}

// Inserts rows by a statement that takes `count` rows.
fn put_by<S: Alter>(
    tx: &mut Transaction<'_, S>,
    alloc: Global,
    text: &str,
    count: usize,
    rows: &[ExportRow],
) -> Result<(), Error>
    requires { 0 < count }
{
    let insert = tx.prepare(text)?;
    let mut values = Vec::new(alloc);
    for some in rows.chunks(count) {
        put(tx, &insert, &mut values, some)?;
    }
    Ok(())
}

// Inserts some rows by one statement.
fn put<S: Alter>(
    tx: &mut Transaction<'_, S>,
    insert: &Statement,
    values: &mut Vec<ValueRef<'static>>,
    rows: &[ExportRow],
) -> Result<(), Error> {
    values.clear();
    for row in rows {
        push_row(values, row)?;
    }
    tx.execute_prepared(insert, values)?;
    Ok(())
}

fn push_row(values: &mut Vec<ValueRef<'static>>, row: &ExportRow) -> Result<(), AllocError> {
    values.push(row.cycle.to_sql())?;
    values.push(row.cell.to_sql())?;
    values.push(u32::from(row.bit).to_sql())?;
    values.push(row.weight.to_sql())?;
    values.push(row.outcome.word().to_sql())?;
    Ok(())
}
