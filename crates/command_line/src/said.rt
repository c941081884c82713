//! The meaning of the values of options, and of the options of a case.
ghost use Rattle.std.specs.Prelude.{◌≡◌, ◌≤◌, IfSome, map, option_map, string_bytes};
ghost use Rattle.command_line.specs.Options.{texts_of};
ghost use Rattle.fs_model.specs.Pages.{max_page};
ghost use Rattle.command_line.specs.Ranges.{max_stop};
ghost use Rattle.command_line.specs.Said as spec;

use crate::commands::{Command, Format, OptionSet, defaults_of, format_named};
use crate::line::CaseLine;
use crate::number::number_in;
use crate::options::{is_given, text_of};
use crate::ranges::{DEFAULT_PAGE, DEFAULT_SEED, MAX_LIMIT, MAX_PAGE, MAX_SEED, MAX_STOP};
use crate::region::{Region, read_region};
use crate::shard::Shard;
use clap::ArgMatches;
use fs_model::Map;

fn region_or(default: Region, value: Option<&str>) -> Option<Region>
    ensures { result ≡ spec.region_or default (spec.text_in value.entry) }
{
    match value {
        Some(text) => read_region(text),
        None => Some(default),
    }
}

pub(crate) fn number_or(default: u64, least: u64, most: u64, value: Option<&str>) -> Option<u64>
    ensures value { result ≡ spec.number_or default least most (spec.text_in value.entry) }
    ensures least { IfSome result (λ n. least ≤ default → least ≤ n) }
    ensures most { IfSome result (λ n. default ≤ most → n ≤ most) }
{
    match value {
        Some(text) => number_in(least, most, text),
        None => Some(default),
    }
}

/// Returns the most jobs of the call; the inner `None` means that the option is missing.
pub(crate) fn read_stop(value: Option<&str>) -> Option<Option<u32>>
    ensures value { result ≡ spec.number_or_none 0 max_stop (spec.text_in value.entry) }
    ensures most { IfSome result (λ stop. IfSome stop (λ n. n ≤ max_stop)) }
{
    match value {
        Some(text) => Some(Some(number_in(0, MAX_STOP, text)? as u32)),
        None => Some(None),
    }
}

/// Returns the shard; the inner `None` means that the option is missing.
pub(crate) fn shard_or_none(value: Option<&str>) -> Option<Option<Shard>>
    ensures { result ≡ spec.shard_or_none (spec.text_in value.entry) }
{
    match value {
        Some(text) => Some(Some(Shard::read(text)?)),
        None => Some(None),
    }
}

fn format_or(command: Command, value: Option<&str>) -> Option<Format>
    ensures { result ≡ spec.format_or command (spec.text_in value.entry) }
{
    match value {
        Some(text) => format_named(command, text),
        None => Some(Format::Text),
    }
}

// Returns the map of ROM and RAM, if the two regions make one.
fn read_map(set: OptionSet, matches: &ArgMatches<'_>) -> Option<Map>
    ensures { result ≡ spec.map_in set (texts_of matches.now) }
{
    let defaults = defaults_of(set);
    let rom = region_or(defaults.rom, text_of(matches, "rom"))?;
    let ram = region_or(defaults.ram, text_of(matches, "ram"))?;
    Map::new(rom.base, rom.size, ram.base, ram.size).ok()
}

/// Returns the words of the files with the given options of a case, whose defaults are those of the set.
pub(crate) fn read_case<'w>(
    set: OptionSet,
    files: &'w [String],
    matches: &ArgMatches<'_>,
) -> Option<CaseLine<'w>>
    ensures { option_map spec.case_of result ≡ spec.case_said set (map string_bytes files.entry.now) (texts_of matches.now) }
{
    let defaults = defaults_of(set);
    Some(CaseLine {
        files,
        map: read_map(set, matches)?,
        limit: number_or(defaults.limit, 1, MAX_LIMIT, text_of(matches, "limit"))? as u32,
        pc_cell: is_given(matches, "pc"),
        ram_code: is_given(matches, "ram-code"),
    })
}

pub(crate) fn read_page(matches: &ArgMatches<'_>) -> Option<u32>
    ensures value { result ≡ spec.page_said (texts_of matches.now) }
    ensures least { IfSome result (λ n. 1 ≤ n) }
    ensures most { IfSome result (λ n. n ≤ max_page) }
{
    Some(number_or(DEFAULT_PAGE, 1, MAX_PAGE, text_of(matches, "page"))? as u32)
}

pub(crate) fn read_seed(matches: &ArgMatches<'_>) -> Option<u64>
    ensures { result ≡ spec.seed_said (texts_of matches.now) }
{
    number_or(DEFAULT_SEED, 0, MAX_SEED, text_of(matches, "seed"))
}

/// Returns the format, if the command writes it.
pub(crate) fn read_format(command: Command, matches: &ArgMatches<'_>) -> Option<Format>
    ensures { result ≡ spec.format_said command (texts_of matches.now) }
{
    format_or(command, text_of(matches, "format"))
}
