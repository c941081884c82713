//! Parts of a run on the command line.
ghost use Rattle.std.specs.Prelude.{◌≡◌, option_map};
ghost use Rattle.command_line.specs.Options.{texts_of};
ghost use Rattle.command_line.specs.Parts as spec;
ghost use Rattle.command_line.specs.Said.{text_in};

use crate::number::number_in;
use crate::options::text_of;
use clap::ArgMatches;

// The largest end of a range: the number of addresses.
const MAX_END: u64 = 0x1_0000_0000;

/// The numbers from `start` on and before `end`, of which there is at least one.
#[derive(Clone, Copy, Debug, PartialEq, Eq)]
pub struct Range {
    pub start: u64,
    pub end: u64,
}

/// The instructions of a run that fulfil each condition that is given.
#[derive(Clone, Copy)]
pub struct RunPart<'w> {
    /// Their numbers in the run are in this range.
    pub cycles: Option<Range>,
    /// Their addresses are in this range.
    pub code: Option<Range>,
    /// They belong to a function with this name.
    pub function: Option<&'w str>,
}

// Returns what follows a leading full stop.
fn after_dot_of(rest: &str) -> Option<&str>
    ensures { option_map (λ s. s.now) result ≡ spec.after_dot rest.now }
{
    rest.strip_prefix('.')
}

// Returns these numbers, if there are any.
fn some_range(start: u64, end: u64) -> Option<Range>
    ensures { result ≡ spec.some_range start end }
{
    if start < end {
        Some(Range { start, end })
    } else {
        None
    }
}

// Returns the range that the text writes as `START..END`, if it is not empty.
fn read_range(text: &str) -> Option<Range>
    ensures { result ≡ spec.range text.now }
{
    let (start, rest) = text.split_once('.')?;
    let end = number_in(0, MAX_END, after_dot_of(rest)?)?;
    let start = number_in(0, MAX_END, start)?;
    some_range(start, end)
}

// Returns the range; the inner `None` means that the option is missing.
fn range_or_none(value: Option<&str>) -> Option<Option<Range>>
    ensures { result ≡ spec.range_or_none (text_in value.entry) }
{
    match value {
        Some(text) => Some(Some(read_range(text)?)),
        None => Some(None),
    }
}

impl<'w> RunPart<'w> {
    /// Returns the part that the given options ask for, if at least one of its conditions is given.
    pub(crate) fn read(matches: &ArgMatches<'w>) -> Option<RunPart<'w>>
        ensures { option_map spec.part_of result ≡ spec.part_said (texts_of matches.now) }
    {
        let cycles = range_or_none(text_of(matches, "cycles"))?;
        let code = range_or_none(text_of(matches, "code"))?;
        let function = text_of(matches, "function");
        if cycles.is_some() || code.is_some() || function.is_some() {
            Some(RunPart {
                cycles,
                code,
                function,
            })
        } else {
            None
        }
    }
}
