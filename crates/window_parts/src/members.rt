//! Which instructions of a run are in a part.
ghost use Rattle.std.specs.Prelude.{◌≡◌, ◌<◌, ◌^◌, IfOk, length, map, slice_index};
ghost use Rattle.std.specs.List.{range_with_len};
ghost use Rattle.command_line.specs.Parts.{part_of};
ghost use Rattle.window_parts.specs.Members.{in_range, members};
ghost use Rattle.window_parts.specs.Spans.{AreSpans, is_member_by};

use crate::functions::{Span, any_has, spans_of};
use command_line::{Range, RunPart};
use elf_symbols::Symbol;
use fs_model::NoMemory;
use std::alloc::Global;

// Returns whether a number is in the range, if one is given.
fn in_range(range: Option<Range>, number: u64) -> bool
    ensures { result ≡ in_range range number }
{
    match range {
        Some(range) => range.start <= number && number < range.end,
        None => true,
    }
}

// Returns whether an instruction is in the part, whose function has these addresses.
fn is_member(part: &RunPart<'_>, spans: &[Span], cycle: usize, at: u32) -> bool
    ensures { result ≡ is_member_by (part_of part.now) spans.now cycle at }
{
    in_range(part.cycles, cycle as u64)
        && in_range(part.code, at as u64)
        && (part.function.is_none() || any_has(spans, at))
}

// Returns for each instruction whether it is in the part, whose function has these addresses.
fn flags_by(
    alloc: Global,
    part: &RunPart<'_>,
    spans: &[Span],
    pcs: &[u32],
) -> Result<Vec<bool>, NoMemory>
    ensures { IfOk result (λ flags. flags.items
        ≡ map (λ t. is_member_by (part_of part.now) spans.now t (slice_index pcs.now t)) (range_with_len 0 (length pcs.now))) }
{
    let mut flags = Vec::with_capacity(alloc, pcs.len())?;
    for cycle in 0..pcs.len() {
        flags.push(is_member(part, spans, cycle, pcs[cycle]))?;
    }
    Ok(flags)
}

// Returns the addresses of the part's function; nothing if none is named.
fn spans_in(
    alloc: Global,
    part: &RunPart<'_>,
    symbols: &[Symbol<'_>],
) -> Result<Vec<Span>, NoMemory>
    ensures { IfOk result (λ spans. AreSpans (part_of part.now) symbols.now spans.items) }
{
    match part.function {
        Some(name) => spans_of(alloc, symbols, name),
        None => Ok(Vec::new(alloc)),
    }
}

/// Returns for each of the instructions with these addresses whether it is in the part.
pub(crate) fn flags_of(
    alloc: Global,
    part: &RunPart<'_>,
    symbols: &[Symbol<'_>],
    pcs: &[u32],
) -> Result<Vec<bool>, NoMemory>
    ensures { IfOk result (λ flags. flags.items ≡ members (part_of part.now) symbols.now pcs.now) }
{
    let spans = spans_in(alloc, part, symbols)?;
    flags_by(alloc, part, &spans, pcs)
}
