//! The meaning of the words of `fail_window`.
ghost use Rattle.std.specs.Prelude.{◌≤◌};
ghost use Rattle.std.specs.Option.{ForSome};
ghost use Rattle.fs_model.specs.Pages.{max_page};
ghost use Rattle.command_line.specs.Ranges.{max_stop, max_workers};

use crate::commands::{Command, Format, OptionSet};
use crate::line::CaseLine;
use crate::options::text_of;
use crate::parts::RunPart;
use crate::ranges::{DEFAULT_WORKERS, MAX_WORKERS};
use crate::said::{number_or, read_case, read_format, read_page, read_stop};
use clap::ArgMatches;

/// How the jobs of a part are run, and what is written.
#[derive(Clone, Copy)]
pub struct Running {
    /// The number of workers that run the jobs.
    pub workers: u32,
    /// The most jobs of a page.
    pub page: u32,
    /// The most jobs that the call runs, if given.
    pub stop_after: Option<u32>,
    /// The format of the report.
    pub format: Format,
    ghost least_workers: { 1 ≤ workers },
    ghost most_workers: { workers ≤ max_workers },
    ghost least_page: { 1 ≤ page },
    ghost most_page: { page ≤ max_page },
    ghost most_stop: { ForSome stop_after (λ n. n ≤ max_stop) },
}

/// The meaning of the words of `fail_window`.
#[derive(Clone, Copy)]
pub struct WindowLine<'w> {
    /// IMAGE and KEEP, and the options of the case.
    pub case: CaseLine<'w>,
    /// The part of the run whose jobs are run.
    pub part: RunPart<'w>,
    pub running: Running,
}

impl Running {
    ghost use Rattle.std.specs.Prelude.{◌≡◌, option_map};
    ghost use Rattle.command_line.specs.Options.{texts_of};
    ghost use Rattle.command_line.specs.Window.{running_of, running_said};

    /// Returns how the given options ask for the jobs to be run.
    fn read(matches: &ArgMatches<'_>) -> Option<Running>
        ensures { option_map running_of result ≡ running_said (texts_of matches.now) }
    {
        Some(Running {
            workers: number_or(
                DEFAULT_WORKERS,
                1,
                MAX_WORKERS,
                text_of(matches, "workers"),
            )? as u32,
            page: read_page(matches)?,
            stop_after: read_stop(text_of(matches, "stop-after"))?,
            format: read_format(Command::Run, matches)?,
        })
    }
}

impl<'w> WindowLine<'w> {
    ghost use Rattle.std.specs.Prelude.{◌≡◌, map, option_map, string_bytes};
    ghost use Rattle.command_line.specs.Options.{texts_of};
    ghost use Rattle.command_line.specs.Window.{window_data, window_said};

    /// Returns the line of these files and the given options.
    pub(crate) fn read(files: &'w [String], matches: &ArgMatches<'w>) -> Option<WindowLine<'w>>
        ensures { option_map window_data result ≡ window_said (map string_bytes files.entry.now) (texts_of matches.now) }
    {
        let Some(case) = read_case(OptionSet::OfWindow, files, matches) else {
            return None;
        };
        let Some(part) = RunPart::read(matches) else {
            return None;
        };
        let running = Running::read(matches)?;
        Some(WindowLine {
            case,
            part,
            running,
        })
    }
}
