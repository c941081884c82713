//! The commands: one row for each, and lookups in the rows.
ghost use Rattle.std.specs.Prelude.{◌≡◌, ◌≤◌};
ghost use Rattle.fs_model.specs.Case.{max_limit};
ghost use Rattle.command_line.specs.Commands as spec;
ghost use Rattle.command_line.specs.Ranges.{max_files};

use crate::region::Region;

/// A command of the program.
#[derive(Clone, Copy, Debug, PartialEq, Eq)]
pub enum Command {
    /// Runs the campaign of an image.
    Run,
    /// Counts the outcomes as `Run` does, but runs every site and needs no campaign file.
    Brute,
    /// Lists the run without a fault, instruction by instruction.
    Trace,
    /// Counts the jobs of a campaign.
    Plan,
    /// Reports the counts that a campaign file keeps.
    Report,
    /// Runs the recorded jobs again, and lists the outcomes in the campaign file that are wrong.
    Audit,
    /// Counts the outcomes of drawn sites.
    Sample,
    /// Adds the outcomes of a second campaign file to the first.
    Merge,
    /// Counts by function and object of the image.
    Symbols,
    /// Runs the campaign of a generated program.
    Demo,
}

/// The format in which a command writes its result.
#[derive(Clone, Copy, Debug, PartialEq, Eq)]
pub enum Format {
    Text,
    Json,
    Csv,
}

/// The words of a command: its name, and what may follow it.
#[derive(Clone, Copy)]
pub struct Shape<'a> {
    /// The word that names it.
    pub word: &'a str,
    /// The number of its files: none, IMAGE, IMAGE and KEEP, or these and OTHER.
    pub files: usize,
    /// Its options, each of which takes a value.
    pub options: &'a [&'a str],
    /// Its flags, which take no value.
    pub flags: &'a [&'a str],
    /// The formats that it writes.
    pub formats: &'a [Format],
}

/// The options and flags that may follow the files of a line.
#[derive(Clone, Copy)]
pub(crate) enum OptionSet {
    /// Those of a command.
    OfCommand(Command),
    /// Those of a case, which follow files that are not those of a command.
    OfCase,
    /// Those of `fail_window`.
    OfWindow,
    /// Those of `fail_answers`.
    OfAnswers,
}

/// Where ROM and RAM lie, and the most instructions of a run, unless an option says otherwise.
#[derive(Clone, Copy)]
pub(crate) struct Defaults {
    pub rom: Region,
    pub ram: Region,
    pub limit: u64,
}

static IMAGE: Defaults = Defaults {
    rom: Region {
        base: 0x2000_0000,
        size: 65536,
    },
    ram: Region {
        base: 0x8000_0000,
        size: 16384,
    },
    limit: 1_000_000,
};

static GENERATED: Defaults = Defaults {
    rom: Region {
        base: 0x2000_0000,
        size: 8192,
    },
    ram: Region {
        base: 0x8000_0000,
        size: 16,
    },
    limit: 10_000,
};

static RUN: Shape<'static> = Shape {
    word: "run",
    files: 2,
    options: &[
        "rom",
        "ram",
        "limit",
        "workers",
        "page",
        "stop-after",
        "shard",
        "format",
    ],
    flags: &["fresh", "pc", "ram-code"],
    formats: &[Format::Text, Format::Json],
};

static BRUTE: Shape<'static> = Shape {
    word: "brute",
    files: 1,
    options: &["rom", "ram", "limit", "format"],
    flags: &["pc", "ram-code"],
    formats: &[Format::Text, Format::Json],
};

static TRACE: Shape<'static> = Shape {
    word: "trace",
    files: 1,
    options: &["rom", "ram", "limit"],
    flags: &["ram-code"],
    formats: &[Format::Text],
};

static PLAN: Shape<'static> = Shape {
    word: "plan",
    files: 1,
    options: &["rom", "ram", "limit", "format"],
    flags: &["pc", "ram-code"],
    formats: &[Format::Text, Format::Csv],
};

static REPORT: Shape<'static> = Shape {
    word: "report",
    files: 2,
    options: &["rom", "ram", "limit", "format"],
    flags: &["pc", "ram-code"],
    formats: &[Format::Text, Format::Json, Format::Csv],
};

static AUDIT: Shape<'static> = Shape {
    word: "audit",
    files: 2,
    options: &["rom", "ram", "limit"],
    flags: &["pc", "ram-code"],
    formats: &[Format::Text],
};

static SAMPLE: Shape<'static> = Shape {
    word: "sample",
    files: 1,
    options: &["rom", "ram", "limit", "count", "seed"],
    flags: &["live", "pc", "ram-code"],
    formats: &[Format::Text],
};

static MERGE: Shape<'static> = Shape {
    word: "merge",
    files: 3,
    options: &["rom", "ram", "limit", "page", "format"],
    flags: &["pc", "ram-code"],
    formats: &[Format::Text, Format::Json],
};

static SYMBOLS: Shape<'static> = Shape {
    word: "symbols",
    files: 2,
    options: &["rom", "ram", "limit"],
    flags: &["pc", "ram-code"],
    formats: &[Format::Text],
};

static DEMO: Shape<'static> = Shape {
    word: "demo",
    files: 0,
    options: &["seed", "blocks"],
    flags: &[],
    formats: &[Format::Text],
};

static CASE: Shape<'static> = Shape {
    word: "case",
    files: 0,
    options: &["rom", "ram", "limit"],
    flags: &["pc", "ram-code"],
    formats: &[],
};

static WINDOW: Shape<'static> = Shape {
    word: "window",
    files: 0,
    options: &[
        "rom",
        "ram",
        "limit",
        "workers",
        "page",
        "stop-after",
        "format",
        "cycles",
        "code",
        "function",
    ],
    flags: &["pc", "ram-code"],
    formats: &[],
};

static ANSWERS: Shape<'static> = Shape {
    word: "answers",
    files: 0,
    options: &["rom", "ram", "limit", "workers", "outcome"],
    flags: &["pc", "ram-code"],
    formats: &[],
};

static ALL_COMMANDS: [Command; 10] = [
    Command::Run,
    Command::Brute,
    Command::Trace,
    Command::Plan,
    Command::Report,
    Command::Audit,
    Command::Sample,
    Command::Merge,
    Command::Symbols,
    Command::Demo,
];

/// Returns the commands, each once.
pub fn all_commands<'a>() -> &'a [Command]
    ensures { result.now ≡ spec.all_commands }
{
    &ALL_COMMANDS
}

/// Returns the row of a command.
pub fn shape_of<'a>(command: Command) -> &'a Shape<'a>
    ensures row { spec.row_of result.now ≡ spec.shape_of command }
    ensures few_files { result.now.files ≤ max_files }
{
    match command {
        Command::Run => &RUN,
        Command::Brute => &BRUTE,
        Command::Trace => &TRACE,
        Command::Plan => &PLAN,
        Command::Report => &REPORT,
        Command::Audit => &AUDIT,
        Command::Sample => &SAMPLE,
        Command::Merge => &MERGE,
        Command::Symbols => &SYMBOLS,
        Command::Demo => &DEMO,
    }
}

/// Returns the row of a set of options.
pub(crate) fn row_in<'a>(set: OptionSet) -> &'a Shape<'a>
    ensures { spec.row_of result.now ≡ spec.row_in set }
{
    match set {
        OptionSet::OfCommand(command) => shape_of(command),
        OptionSet::OfCase => &CASE,
        OptionSet::OfWindow => &WINDOW,
        OptionSet::OfAnswers => &ANSWERS,
    }
}

/// Returns the defaults of the options of a case: those of an image, or those of the program that `demo` generates.
pub(crate) fn defaults_of<'a>(set: OptionSet) -> &'a Defaults
    ensures value { result.now ≡ spec.defaults_of set }
    ensures least_limit { 1 ≤ result.now.limit }
    ensures most_limit { result.now.limit ≤ max_limit }
{
    match set {
        OptionSet::OfCommand(Command::Demo) => &GENERATED,
        _ => &IMAGE,
    }
}

impl Command {
    /// Returns whether the command writes to its campaign file.
    pub fn writes_keep(self) -> bool
        ensures { result ≡ spec.writes_keep self }
    {
        matches!(self, Command::Run | Command::Merge)
    }
}

/// Returns the command that a word names.
#[tactic(auto, unfolding(crate::specs::Commands::command_named))]
pub fn command_named(word: &str) -> Option<Command>
    ensures { result ≡ spec.command_named word.now }
{
    ALL_COMMANDS
        .iter()
        .copied()
        .find(|command| shape_of(*command).word == word)
}

fn format_name<'a>(format: Format) -> &'a str
    ensures { result.now ≡ spec.format_name format }
{
    match format {
        Format::Text => "text",
        Format::Json => "json",
        Format::Csv => "csv",
    }
}

/// Returns the format that a word names, if the command writes that format.
pub(crate) fn format_named(command: Command, word: &str) -> Option<Format>
    ensures { result ≡ spec.format_named command word.now }
{
    shape_of(command)
        .formats
        .iter()
        .copied()
        .find(|format| format_name(*format) == word)
}
