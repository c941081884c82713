//! The meaning of a command line: a command, what it asks of its image, and its own options.
ghost use Rattle.std.specs.Prelude.{◌≤◌};
ghost use Rattle.std.specs.Option.{ForSome};
ghost use Rattle.fs_model.specs.Pages.{max_page};
ghost use Rattle.command_line.specs.Ranges.{max_blocks, max_count, max_stop, max_workers};

use crate::commands::{Command, Format, OptionSet};
use crate::line::CaseLine;
use crate::options::{is_given, text_of};
use crate::ranges::{
    DEFAULT_BLOCKS, DEFAULT_COUNT, DEFAULT_PAGE, DEFAULT_WORKERS, MAX_BLOCKS, MAX_COUNT,
    MAX_WORKERS,
};
use crate::said::{
    number_or, read_case, read_format, read_page, read_seed, read_stop, shard_or_none,
};
use crate::shard::Shard;
use clap::ArgMatches;

/// Which jobs of a case `run` runs, and how.
#[derive(Clone, Copy)]
pub struct Campaign {
    /// The number of workers that run the jobs.
    pub workers: u32,
    /// The most jobs of a page.
    pub page: u32,
    /// The most jobs that the call runs, if given.
    pub stop_after: Option<u32>,
    /// The shard whose jobs are run; without it all jobs are run.
    pub shard: Option<Shard>,
    /// Whether to start the campaign file again, whatever it holds.
    pub fresh: bool,
    /// The format of the report.
    pub format: Format,
    ghost least_workers: { 1 ≤ workers },
    ghost most_workers: { workers ≤ max_workers },
    ghost least_page: { 1 ≤ page },
    ghost most_page: { page ≤ max_page },
    ghost most_stop: { ForSome stop_after (λ n. n ≤ max_stop) },
}

/// Which sites a sample draws.
#[derive(Clone, Copy)]
pub struct Draws {
    /// The number of sites.
    pub count: u32,
    /// The first state of the generator.
    pub seed: u64,
    /// Whether only live sites are drawn.
    pub live: bool,
    ghost least_count: { 1 ≤ count },
    ghost most_count: { count ≤ max_count },
}

/// How a merge appends rows, and what it writes.
#[derive(Clone, Copy)]
pub struct Merging {
    /// The most jobs of a page.
    pub page: u32,
    /// The format of the report.
    pub format: Format,
    ghost least_page: { 1 ≤ page },
    ghost most_page: { page ≤ max_page },
}

/// A generated program.
#[derive(Clone, Copy)]
pub struct Program {
    /// The first state of the generator.
    pub seed: u64,
    /// The number of blocks.
    pub blocks: u32,
    ghost least_blocks: { 1 ≤ blocks },
    ghost most_blocks: { blocks ≤ max_blocks },
}

/// A command with what it asks of its image, and the values of its own options.
#[derive(Clone, Copy)]
pub enum Request<'w> {
    Run(CaseLine<'w>, Campaign),
    Brute(CaseLine<'w>, Format),
    Trace(CaseLine<'w>),
    Plan(CaseLine<'w>, Format),
    Report(CaseLine<'w>, Format),
    Audit(CaseLine<'w>),
    Sample(CaseLine<'w>, Draws),
    Merge(CaseLine<'w>, Merging),
    Symbols(CaseLine<'w>),
    Demo(CaseLine<'w>, Program),
}

impl Campaign {
    ghost use Rattle.std.specs.Prelude.{◌≡◌, option_map};
    ghost use Rattle.command_line.specs.Options.{texts_of};
    ghost use Rattle.command_line.specs.Request.{campaign_of, campaign_said, whole_campaign};

    /// Returns the campaign that the given options ask for.
    fn read(matches: &ArgMatches<'_>) -> Option<Campaign>
        ensures { option_map campaign_of result ≡ campaign_said (texts_of matches.now) }
    {
        Some(Campaign {
            workers: number_or(
                DEFAULT_WORKERS,
                1,
                MAX_WORKERS,
                text_of(matches, "workers"),
            )? as u32,
            page: read_page(matches)?,
            stop_after: read_stop(text_of(matches, "stop-after"))?,
            shard: shard_or_none(text_of(matches, "shard"))?,
            fresh: is_given(matches, "fresh"),
            format: read_format(Command::Run, matches)?,
        })
    }

    /// Returns the campaign that runs all jobs, starts its file again and reports in text.
    pub fn whole() -> Campaign
        ensures { campaign_of result ≡ whole_campaign }
    {
        Campaign {
            workers: DEFAULT_WORKERS as u32,
            page: DEFAULT_PAGE as u32,
            stop_after: None,
            shard: None,
            fresh: true,
            format: Format::Text,
        }
    }
}

impl Draws {
    ghost use Rattle.std.specs.Prelude.{◌≡◌, option_map};
    ghost use Rattle.command_line.specs.Options.{texts_of};
    ghost use Rattle.command_line.specs.Request.{draws_of, draws_said};

    /// Returns the draws that the given options ask for.
    fn read(matches: &ArgMatches<'_>) -> Option<Draws>
        ensures { option_map draws_of result ≡ draws_said (texts_of matches.now) }
    {
        Some(Draws {
            count: number_or(DEFAULT_COUNT, 1, MAX_COUNT, text_of(matches, "count"))? as u32,
            seed: read_seed(matches)?,
            live: is_given(matches, "live"),
        })
    }
}

impl Merging {
    ghost use Rattle.std.specs.Prelude.{◌≡◌, option_map};
    ghost use Rattle.command_line.specs.Options.{texts_of};
    ghost use Rattle.command_line.specs.Request.{merging_of, merging_said};

    /// Returns the way of merging that the given options ask for.
    fn read(matches: &ArgMatches<'_>) -> Option<Merging>
        ensures { option_map merging_of result ≡ merging_said (texts_of matches.now) }
    {
        Some(Merging {
            page: read_page(matches)?,
            format: read_format(Command::Merge, matches)?,
        })
    }
}

impl Program {
    ghost use Rattle.std.specs.Prelude.{◌≡◌, option_map};
    ghost use Rattle.command_line.specs.Options.{texts_of};
    ghost use Rattle.command_line.specs.Request.{program_of, program_said};

    /// Returns the program that the given options ask for.
    fn read(matches: &ArgMatches<'_>) -> Option<Program>
        ensures { option_map program_of result ≡ program_said (texts_of matches.now) }
    {
        Some(Program {
            seed: read_seed(matches)?,
            blocks: number_or(DEFAULT_BLOCKS, 1, MAX_BLOCKS, text_of(matches, "blocks"))? as u32,
        })
    }
}

impl<'w> Request<'w> {
    ghost use Rattle.std.specs.Prelude.{◌≡◌, map, option_map, string_bytes};
    ghost use Rattle.command_line.specs.Options.{texts_of};
    ghost use Rattle.command_line.specs.Request as spec;
    ghost use Rattle.command_line.specs.Said.{case_of};

    /// Returns the request of a command with the words of its files and the given options.
    pub(crate) fn read(
        command: Command,
        files: &'w [String],
        matches: &ArgMatches<'_>,
    ) -> Option<Request<'w>>
        ensures { option_map spec.request_of result ≡ spec.said command (map string_bytes files.entry.now) (texts_of matches.now) }
    {
        let Some(case) = read_case(OptionSet::OfCommand(command), files, matches) else {
            return None;
        };
        match command {
            Command::Run => Some(Request::Run(case, Campaign::read(matches)?)),
            Command::Brute => Some(Request::Brute(case, read_format(command, matches)?)),
            Command::Trace => Some(Request::Trace(case)),
            Command::Plan => Some(Request::Plan(case, read_format(command, matches)?)),
            Command::Report => Some(Request::Report(case, read_format(command, matches)?)),
            Command::Audit => Some(Request::Audit(case)),
            Command::Sample => Some(Request::Sample(case, Draws::read(matches)?)),
            Command::Merge => Some(Request::Merge(case, Merging::read(matches)?)),
            Command::Symbols => Some(Request::Symbols(case)),
            Command::Demo => Some(Request::Demo(case, Program::read(matches)?)),
        }
    }

    /// Returns the command.
    pub fn command(&self) -> Command
        ensures { result ≡ spec.command_in (spec.request_of self.now) }
    {
        match self {
            Request::Run(_, _) => Command::Run,
            Request::Brute(_, _) => Command::Brute,
            Request::Trace(_) => Command::Trace,
            Request::Plan(_, _) => Command::Plan,
            Request::Report(_, _) => Command::Report,
            Request::Audit(_) => Command::Audit,
            Request::Sample(_, _) => Command::Sample,
            Request::Merge(_, _) => Command::Merge,
            Request::Symbols(_) => Command::Symbols,
            Request::Demo(_, _) => Command::Demo,
        }
    }

    /// Returns what the command asks of its image.
    pub fn case(&self) -> &CaseLine<'w>
        ensures { case_of result.now ≡ spec.case_in (spec.request_of self.now) }
    {
        match self {
            Request::Run(case, _)
            | Request::Brute(case, _)
            | Request::Trace(case)
            | Request::Plan(case, _)
            | Request::Report(case, _)
            | Request::Audit(case)
            | Request::Sample(case, _)
            | Request::Merge(case, _)
            | Request::Symbols(case)
            | Request::Demo(case, _) => case,
        }
    }
}
