//! The part of a golden run that is asked for.
ghost use Rattle.std.specs.Prelude.{◌≡◌, IfErr, IfOk};
ghost use Rattle.command_line.specs.Parts.{part_of};
ghost use Rattle.golden_trace.specs.Goldens.{IsGolden};
ghost use Rattle.window_parts.specs.Members as spec;
ghost use Rattle.window_parts.specs.Parts.{IsPartWindow, IsPartRefusal};

use crate::functions::{any_is_function, any_is_named};
use crate::members::flags_of;
use command_line::{Range, RunPart};
use elf_symbols::Symbol;
use fs_model::{Case, NoMemory as OutOfMemory};
use golden_trace::Golden;
use std::alloc::Global;
use window_counts::Window;

/// Why no instruction is in a part of a run.
#[derive(Clone, Copy, Debug, PartialEq, Eq)]
pub enum NoPart {
    /// A function is named, and the image has no functions.
    NoFunctions,
    /// No function of the image has the name.
    NoFunction,
    /// The range of cycles begins after the end of the run, which has this number of instructions.
    BeyondRun(u32),
    /// The run executes no instruction that fulfils the conditions.
    NotExecuted,
}

/// Why there is no part.
#[derive(Clone, Copy, Debug, PartialEq, Eq)]
pub enum PartRefusal {
    /// No instruction is in it.
    Nothing(NoPart),
    NoMemory,
}

// Returns whether no function has the name that the part gives.
fn lacks_function(part: &RunPart<'_>, symbols: &[Symbol<'_>]) -> bool
    ensures { result ≡ spec.lacks_function (part_of part.now).function symbols.now }
{
    match part.function {
        Some(name) => !any_is_named(symbols, name),
        None => false,
    }
}

// Returns whether the range of cycles begins after the last of `count` cycles.
fn is_beyond(range: Option<Range>, count: u32) -> bool
    ensures { result ≡ spec.is_beyond range count }
{
    match range {
        Some(range) => count as u64 <= range.start,
        None => false,
    }
}

// Returns why no instruction of a run of `count` instructions is in the part.
fn no_part(part: &RunPart<'_>, symbols: &[Symbol<'_>], count: u32) -> NoPart
    ensures { result ≡ spec.no_part (part_of part.now) symbols.now count }
{
    if lacks_function(part, symbols) {
        if any_is_function(symbols) {
            NoPart::NoFunction
        } else {
            NoPart::NoFunctions
        }
    } else if is_beyond(part.cycles, count) {
        NoPart::BeyondRun(count)
    } else {
        NoPart::NotExecuted
    }
}

// Returns the window of the part, which may be empty.
fn window_by(
    alloc: Global,
    case: &Case,
    golden: &Golden,
    part: &RunPart<'_>,
    symbols: &[Symbol<'_>],
) -> Result<Window, OutOfMemory>
    requires { IsGolden case.now golden.now }
    ensures { IfOk result (λ window. window ≡ spec.part_window (part_of part.now) symbols.now case.now) }
{
    case.facts();
    let _count = golden.count();
    let flags = flags_of(alloc, part, symbols, golden.pcs())?;
    Window::new(alloc, &flags)
}

/// Returns the window of the instructions of a case's golden run that are in the part. `symbols` are the functions
/// and objects of the image, or nothing if the part names no function.
///
/// # Errors
///
/// `Nothing` with the reason if no instruction is in the part, or `NoMemory`: 5 bytes for each instruction.
pub fn window_of(
    alloc: Global,
    case: &Case,
    golden: &Golden,
    part: &RunPart<'_>,
    symbols: &[Symbol<'_>],
) -> Result<Window, PartRefusal>
    requires { IsGolden case.now golden.now }
    ensures window { IfOk result (λ window. IsPartWindow (part_of part.now) symbols.now case.now window) }
    ensures refused { IfErr result (λ why. IsPartRefusal (part_of part.now) symbols.now case.now why) }
{
    let Ok(window) = window_by(alloc, case, golden, part, symbols) else {
        return Err(PartRefusal::NoMemory);
    };
    if window.len() == 0 {
        drop(window);
        return Err(PartRefusal::Nothing(no_part(part, symbols, golden.count())));
    }
    Ok(window)
}
