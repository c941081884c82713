//! The jobs of a campaign as comma-separated values, made in memory by the writer of `csv`.
ghost use Rattle.std.specs.Prelude.{◌≡◌, Err, Some, false, IfOk, OnOk, length, zip};
ghost use Rattle.std.specs.List.{flat_map};
ghost use Rattle.std.specs.Io.KnownBytes.{Appends};
ghost use Rattle.csv.specs.Writing.{default_writer, fields_written, has_written, text_written, writer_setup};
ghost use Rattle.fs_outside.specs.Faults.{IsCaused};
ghost use Rattle.fs_outside.specs.Writing.{Writes};
ghost use Rattle.report.specs.Refusal.{is_failed};
ghost use Rattle.report.specs.Text as spec;

use crate::refusal::{ReportRefusal, write_made};
use csv::{Error, Writer};
use def_use::{Board, JobList};
use fs_model::{Job, Outcome};
use fs_outside::Sink;
use itoa::Buffer;
use std::alloc::Global;
use std::io::Write;

// Writes the row of a job.
fn write_job<W: Write + Drop>(writer: &mut Writer<W>, job: &Job) -> Result<(), Error>
    requires setup { writer_setup writer.old ≡ default_writer }
    requires fields { fields_written writer.old ≡ 0 }
    requires wrote { has_written writer.old ≡ false }
    ensures text { OnOk result (Appends (text_written W.contents writer.old) (text_written W.contents writer.new) (spec.job_row job.now)) }
    ensures setup { OnOk result (writer_setup writer.new ≡ default_writer) }
    ensures fields { OnOk result (fields_written writer.new ≡ 0) }
    ensures wrote { OnOk result (has_written writer.new ≡ false) }
{
    let mut cycle = Buffer::new();
    let mut cell = Buffer::new();
    let mut bit = Buffer::new();
    let mut weight = Buffer::new();
    writer.write_fields(&[
        cycle.format(job.cycle).as_bytes(),
        cell.format(job.cell).as_bytes(),
        bit.format(job.bit).as_bytes(),
        weight.format(job.weight).as_bytes(),
    ])?;
    Ok(())
}

// Writes the row of a job with its outcome.
fn write_outcome<W: Write + Drop>(
    writer: &mut Writer<W>,
    job: &Job,
    outcome: Outcome,
) -> Result<(), Error>
    requires setup { writer_setup writer.old ≡ default_writer }
    requires fields { fields_written writer.old ≡ 0 }
    requires wrote { has_written writer.old ≡ false }
    ensures text { OnOk result (Appends (text_written W.contents writer.old) (text_written W.contents writer.new) (spec.outcome_row job.now (Some outcome))) }
    ensures setup { OnOk result (writer_setup writer.new ≡ default_writer) }
    ensures fields { OnOk result (fields_written writer.new ≡ 0) }
    ensures wrote { OnOk result (has_written writer.new ≡ false) }
{
    let mut cycle = Buffer::new();
    let mut cell = Buffer::new();
    let mut bit = Buffer::new();
    let mut weight = Buffer::new();
    writer.write_fields(&[
        cycle.format(job.cycle).as_bytes(),
        cell.format(job.cell).as_bytes(),
        bit.format(job.bit).as_bytes(),
        weight.format(job.weight).as_bytes(),
        outcome.word().as_bytes(),
    ])?;
    Ok(())
}

// Writes the row of a job with its outcome on a board, if there is one.
fn write_place<W: Write + Drop>(
    writer: &mut Writer<W>,
    job: &Job,
    place: Option<Outcome>,
) -> Result<(), Error>
    requires setup { writer_setup writer.old ≡ default_writer }
    requires fields { fields_written writer.old ≡ 0 }
    requires wrote { has_written writer.old ≡ false }
    ensures text { OnOk result (Appends (text_written W.contents writer.old) (text_written W.contents writer.new) (spec.outcome_row job.now place)) }
    ensures setup { OnOk result (writer_setup writer.new ≡ default_writer) }
    ensures fields { OnOk result (fields_written writer.new ≡ 0) }
    ensures wrote { OnOk result (has_written writer.new ≡ false) }
{
    match place {
        Some(outcome) => write_outcome(writer, job, outcome),
        None => Ok(()),
    }
}

// Writes the row of each job.
fn write_plan<W: Write + Drop>(writer: &mut Writer<W>, list: &JobList) -> Result<(), Error>
    requires setup { writer_setup writer.old ≡ default_writer }
    requires fields { fields_written writer.old ≡ 0 }
    requires wrote { has_written writer.old ≡ false }
    ensures { OnOk result (Appends (text_written W.contents writer.old) (text_written W.contents writer.new) (flat_map spec.job_row list.now.list)) }
{
    let mut walk = list.walk();
    for number in 0..list.len() {
        let job = walk.get(number);
        write_job(writer, &job)?;
    }
    Ok(())
}

// Writes the row of each job that has an outcome.
fn write_jobs<W: Write + Drop>(
    writer: &mut Writer<W>,
    list: &JobList,
    board: &Board,
) -> Result<(), Error>
    requires setup { writer_setup writer.old ≡ default_writer }
    requires fields { fields_written writer.old ≡ 0 }
    requires wrote { has_written writer.old ≡ false }
    requires board { length board.now ≡ length list.now.list }
    ensures { OnOk result (Appends (text_written W.contents writer.old) (text_written W.contents writer.new)
        (flat_map (λ row. spec.outcome_row row.0 row.1) (zip list.now.list board.now))) }
{
    let mut walk = list.walk();
    for number in 0..list.len() {
        let job = walk.get(number);
        let place = board.get(number);
        write_place(writer, &job, place)?;
    }
    Ok(())
}

fn plan_text(alloc: Global, list: &JobList) -> Result<Vec<u8>, Error>
    ensures { IfOk result (λ text. text.items ≡ spec.plan_csv list.now.list) }
{
    let mut writer = Writer::from_writer(Vec::new(alloc));
    writer.write_fields(&[
        b"cycle".as_slice(),
        b"cell".as_slice(),
        b"bit".as_slice(),
        b"weight".as_slice(),
    ])?;
    write_plan(&mut writer, list)?;
    match writer.into_inner() {
        Ok(text) => Ok(text),
        Err(error) => Err(error.into_error()),
    }
}

fn jobs_text(alloc: Global, list: &JobList, board: &Board) -> Result<Vec<u8>, Error>
    requires { length board.now ≡ length list.now.list }
    ensures { IfOk result (λ text. text.items ≡ spec.jobs_csv list.now.list board.now) }
{
    let mut writer = Writer::from_writer(Vec::new(alloc));
    writer.write_fields(&[
        b"cycle".as_slice(),
        b"cell".as_slice(),
        b"bit".as_slice(),
        b"weight".as_slice(),
        b"outcome".as_slice(),
    ])?;
    write_jobs(&mut writer, list, board)?;
    match writer.into_inner() {
        Ok(text) => Ok(text),
        Err(error) => Err(error.into_error()),
    }
}

/// Writes the names of the columns, and a line for each job (RFC 4180, but lines end with LF).
///
/// # Errors
///
/// `Failed` if the sink failed; it may have taken a part. `NoMemory` if memory for the text is refused, and
/// then nothing is written.
pub fn write_plan_csv<O: Sink>(
    alloc: Global,
    out: &mut O,
    list: &JobList,
) -> Result<(), ReportRefusal>
    ensures bytes { O.tells → Writes (O.taken out.old) (O.taken out.new) (spec.plan_csv list.now.list) result }
    ensures cause { IsCaused (is_failed result) (O.faults out.old) (O.faults out.new) }
    ensures nothing { result ≡ Err ReportRefusal.NoMemory → out.new ≡ out.old }
{
    let Ok(text) = plan_text(alloc, list) else {
        return Err(ReportRefusal::NoMemory);
    };
    write_made(out, text.as_slice())
}

/// Writes the names of the columns, and a line for each job with its outcome on the board.
///
/// # Errors
///
/// `Failed` if the sink failed; it may have taken a part. `NoMemory` if memory for the text is refused, and
/// then nothing is written.
pub fn write_jobs_csv<O: Sink>(
    alloc: Global,
    out: &mut O,
    list: &JobList,
    board: &Board,
) -> Result<(), ReportRefusal>
    requires { length board.now ≡ length list.now.list }
    ensures bytes { O.tells → Writes (O.taken out.old) (O.taken out.new) (spec.jobs_csv list.now.list board.now) result }
    ensures cause { IsCaused (is_failed result) (O.faults out.old) (O.faults out.new) }
    ensures nothing { result ≡ Err ReportRefusal.NoMemory → out.new ≡ out.old }
{
    let Ok(text) = jobs_text(alloc, list, board) else {
        return Err(ReportRefusal::NoMemory);
    };
    write_made(out, text.as_slice())
}
