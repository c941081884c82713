//! The lines of an audit, written without taking memory.
ghost use Rattle.fs_outside.specs.Faults.{HasCause};
ghost use Rattle.fs_outside.specs.Writing.{Writes};
ghost use Rattle.audit.specs.Text as spec;

use fs_model::{Job, Outcome};
use fs_outside::{Failed, Part, Sink, write_parts};

/// Writes the line of a job whose recorded outcome is wrong.
pub(crate) fn write_wrong<O: Sink>(
    out: &mut O,
    job: &Job,
    kept: Outcome,
    true_one: Outcome,
) -> Result<(), Failed>
    ensures bytes { O.tells → Writes (O.taken out.old) (O.taken out.new) (spec.wrong_line job.now kept true_one) result }
    ensures cause { HasCause (O.faults out.old) (O.faults out.new) result }
{
    write_parts(
        out,
        &[
            Part::Text("wrong "),
            Part::Number(job.cycle as u64),
            Part::Text(" "),
            Part::Number(job.cell as u64),
            Part::Text(" "),
            Part::Number(job.bit as u64),
            Part::Text(" "),
            Part::Text(kept.word()),
            Part::Text(" "),
            Part::Text(true_one.word()),
            Part::Text("\n"),
        ],
    )
}

/// Writes the numbers of jobs that have an outcome and of those whose outcome is wrong.
pub(crate) fn write_numbers<O: Sink>(out: &mut O, kept: u32, wrong: u32) -> Result<(), Failed>
    ensures bytes { O.tells → Writes (O.taken out.old) (O.taken out.new) (spec.numbers_line kept wrong) result }
    ensures cause { HasCause (O.faults out.old) (O.faults out.new) result }
{
    write_parts(
        out,
        &[
            Part::Text("kept "),
            Part::Number(kept as u64),
            Part::Text(" wrong "),
            Part::Number(wrong as u64),
            Part::Text("\n"),
        ],
    )
}
