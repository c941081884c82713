//! The command `trace`: the run without a fault, a line for each instruction.
//!
//! Takes memory only for its machine and one buffer, however long the run is: the output is not kept, but
//! produced again by a second run.
ghost use Rattle.std.specs.Prelude.{◌≡◌, ◌++◌, [], IfOk, MatchResult};
ghost use Rattle.fs_model.specs.Machine.{reset};
ghost use Rattle.fs_model.specs.Run.{after};
ghost use Rattle.fs_outside.specs.Faults.{HasCause};
ghost use Rattle.fs_outside.specs.Writing.{Writes, TookPart};
ghost use Rattle.report.specs.Buffer.{Moved, Puts};
ghost use Rattle.plain_commands.specs.Trace.{instruction_lines, output_line, trace_text};
ghost use Rattle.command_line.specs.declared.commands.Command.{Command};
ghost use Rattle.phases.specs.Commands.{IsCaseCause};
ghost use Rattle.phases.specs.Failures.{status_of};
ghost use Rattle.phases.specs.Output.{IsText, OutputStory};
ghost use Rattle.plain_commands.specs.Walk.{IsWalked, steps_by};

use crate::lines::{output_end, put_bytes, put_end, put_instruction};
use fs_model::{Case, Event};
use fs_outside::{Failed, Sink};
use phases::{Answer, Failure};
use report::{PIECE, flush, put};
use rv_machine::Machine;
use std::alloc::Global;

// Puts the lines of the run from the initial state. Returns the number of steps after which the run continued,
// and the event of the step after them; if that is no end, the limit was reached.
fn put_instructions<O: Sink>(
    out: &mut O,
    waiting: &mut Vec<u8>,
    machine: &mut Machine,
    limit: u32,
) -> Result<(u32, Event), Failed>
    requires start { machine.old.core ≡ reset machine.old.case }
    requires limit { limit ≡ machine.old.case.limit }
    ensures walked { IfOk result (λ r. IsWalked machine.old.case r.0 r.1) }
    ensures bytes { O.tells → MatchResult result
        (λ r. Moved (O.taken out.old) waiting.old.items (O.taken out.new) waiting.new.items (instruction_lines machine.old.case (steps_by r.0 r.1)))
        (λ _. TookPart (O.taken out.old) (O.taken out.new) (waiting.old.items ++ trace_text machine.old.case)) }
    ensures case { machine.new.case ≡ machine.old.case }
    ensures cause { HasCause (O.faults out.old) (O.faults out.new) result }
{
    for cycle in 0..limit {
        put_instruction(out, waiting, cycle, machine.pc(), machine.word())?;
        let event = machine.step();
        if !event.goes_on() {
            return Ok((cycle, event));
        }
    }
    Ok((limit, Event::Went))
}

// Puts the line with the bytes that the run has sent in `steps` steps.
fn put_output<O: Sink>(
    out: &mut O,
    waiting: &mut Vec<u8>,
    machine: &mut Machine,
    steps: u32,
) -> Result<(), Failed>
    requires { machine.old.core ≡ reset machine.old.case }
    ensures bytes { O.tells → Puts (O.taken out.old) waiting.old.items (O.taken out.new) waiting.new.items
        (output_line (after machine.old.case steps).output) result }
    ensures cause { HasCause (O.faults out.old) (O.faults out.new) result }
{
    put(out, waiting, b"output ")?;
    let any = put_bytes(out, waiting, machine, steps)?;
    put(out, waiting, output_end(any))
}

// Writes the trace of the machine's case, from the initial state, through an empty buffer.
fn write_trace<O: Sink>(
    out: &mut O,
    waiting: &mut Vec<u8>,
    machine: &mut Machine,
    limit: u32,
) -> Result<(), Failed>
    requires start { machine.old.core ≡ reset machine.old.case }
    requires limit { limit ≡ machine.old.case.limit }
    requires empty { waiting.old.items ≡ [] }
    ensures bytes { O.tells → Writes (O.taken out.old) (O.taken out.new) (trace_text machine.old.case) result }
    ensures cause { HasCause (O.faults out.old) (O.faults out.new) result }
{
    let (went, last) = put_instructions(out, waiting, machine, limit)?;
    machine.rewind();
    put_output(out, waiting, machine, went)?;
    put_end(out, waiting, last)?;
    flush(out, waiting)
}

/// Runs a case without a fault, and writes a line for each instruction, what it sent and how it ended.
pub fn trace<O: Sink>(alloc: Global, case: &Case, out: &mut O) -> Answer
    ensures cause { IsCaseCause Command.Trace case.now (status_of result) }
    ensures output { OutputStory O.tells O.taken O.faults (IsText (trace_text case.now)) out.old out.new (status_of result) }
{
    let mut machine = Machine::new(alloc, case)?;
    let mut waiting = Vec::with_capacity(alloc, PIECE)?;
    match write_trace(out, &mut waiting, &mut machine, case.limit()) {
        Ok(()) => Ok(()),
        Err(Failed) => Err(Failure::WriteFault),
    }
}
