//! What a call of `fail_window` writes to the error output.
ghost use Rattle.std.specs.Prelude.{◌≡◌, ◌++◌};
ghost use Rattle.fs_outside.specs.Faults.{HasCause};
ghost use Rattle.fs_outside.specs.Writing.{TookPart, Writes};
ghost use Rattle.phases.specs.Status.{HasNoFault};
ghost use Rattle.window_run.specs.WindowStatus.{no_part_text, window_told_text};

use crate::status::WindowStatus;
use fs_outside::{Failed, Part, Sink, write_parts};
use phases::{Status, tell_status};
use window_parts::NoPart;

// Writes why no instruction is in the part, which names this function if it names one.
fn write_no_part<E: Sink>(err: &mut E, function: &str, why: NoPart) -> Result<(), Failed>
    ensures bytes { E.tells → Writes (E.taken err.old) (E.taken err.new) (no_part_text function.now why) result }
    ensures cause { HasCause (E.faults err.old) (E.faults err.new) result }
{
    match why {
        NoPart::NoFunctions => write_parts(
            err,
            &[Part::Text("no instruction in the part: the image has no functions\n")],
        ),
        NoPart::NoFunction => write_parts(
            err,
            &[
                Part::Text("no instruction in the part: no function "),
                Part::Text(function),
                Part::Text("\n"),
            ],
        ),
        NoPart::BeyondRun(count) => write_parts(
            err,
            &[
                Part::Text("no instruction in the part: the golden run has "),
                Part::Number(count as u64),
                Part::Text(" instructions\n"),
            ],
        ),
        NoPart::NotExecuted => write_parts(
            err,
            &[Part::Text(
                "no instruction in the part: none that fulfils its conditions is executed\n",
            )],
        ),
    }
}

/// Writes the line of a status to the error output. `function` is the function that the words name, or nothing. A
/// fault of that output has no other effect.
pub fn tell_window<E: Sink>(err: &mut E, function: &str, status: WindowStatus)
    ensures told { E.tells → HasNoFault (E.faults err.old) (E.faults err.new)
        → E.taken err.new ≡ E.taken err.old ++ window_told_text function.now status }
    ensures part { E.tells → TookPart (E.taken err.old) (E.taken err.new) (window_told_text function.now status) }
{
    match status {
        WindowStatus::Ended(Status::Usage) => {
            let _ = write_parts(
                err,
                &[Part::Text(
                    "usage: fail_window IMAGE KEEP (--cycles A..B | --code LOW..HIGH | --function NAME) [options]\n",
                )],
            );
        }
        WindowStatus::Ended(answer) => tell_status(err, answer),
        WindowStatus::Empty(why) => {
            let _ = write_no_part(err, function, why);
        }
    }
}
