//! The line on the error output for each status.
ghost use Rattle.std.specs.Prelude.{◌≡◌, ◌++◌};
ghost use Rattle.fs_outside.specs.Faults.{HasCause};
ghost use Rattle.fs_outside.specs.Writing.{TookPart, Writes};
ghost use Rattle.phases.specs.SiteStatus.{no_site_text, site_status_text};
ghost use Rattle.phases.specs.Status.{HasNoFault};
ghost use Rattle.phases.specs.Status as spec;

use crate::site_status::SiteStatus;
use crate::status::{OtherReason, Status};
use command_line::{Command, all_commands, shape_of};
use fs_model::Site;
use fs_outside::{Failed, Part, Sink, write_parts};
use golden_trace::GoldenFault;
use keep_format::FormatFault;
use result_keeper::KeepRefusal;

// Returns the words of a command's files, each after a space.
fn file_words(command: Command) -> &'static str
    ensures { result.now ≡ spec.file_words command }
{
    match shape_of(command).files {
        0 => "",
        1 => " IMAGE",
        2 => " IMAGE KEEP",
        _ => " IMAGE KEEP OTHER",
    }
}

// Returns what may follow the files of a command.
fn usage_options(command: Command) -> &'static str
    ensures { result.now ≡ spec.usage_options command }
{
    match command {
        Command::Demo => " [--seed S] [--blocks K]",
        _ => " [options]",
    }
}

fn write_usage_line<E: Sink>(err: &mut E, command: Command) -> Result<(), Failed>
    ensures bytes { E.tells → Writes (E.taken err.old) (E.taken err.new) (spec.usage_line command) result }
    ensures cause { HasCause (E.faults err.old) (E.faults err.new) result }
{
    write_parts(
        err,
        &[
            Part::Text("usage: fail_star "),
            Part::Text(shape_of(command).word),
            Part::Text(file_words(command)),
            Part::Text(usage_options(command)),
            Part::Text("\n"),
        ],
    )
}

fn write_usage<E: Sink>(err: &mut E) -> Result<(), Failed>
    ensures bytes { E.tells → Writes (E.taken err.old) (E.taken err.new) spec.usage_text result }
    ensures cause { HasCause (E.faults err.old) (E.faults err.new) result }
{
    let commands = all_commands();
    for command in commands {
        write_usage_line(err, *command)?;
    }
    Ok(())
}

// Returns the name of an image's fault by its number.
#[tactic(auto, unfolding(crate::specs::Status::fault_name))]
fn fault_name(number: u8) -> &'static str
    ensures { result.now ≡ spec.fault_name number }
{
    match number {
        1 => "Short",
        2 => "NotElf",
        3 => "NotClass32",
        4 => "NotLittle",
        5 => "Version",
        6 => "NotExec",
        7 => "NotRiscv",
        8 => "BadHeaders",
        9 => "FilePastMemory",
        10 => "SegmentPastFile",
        11 => "SegmentOutsideMap",
        12 => "TooLong",
        13 => "BadSections",
        14 => "BadName",
        _ => "",
    }
}

fn write_image_fault<E: Sink>(err: &mut E, number: u8) -> Result<(), Failed>
    ensures bytes { E.tells → Writes (E.taken err.old) (E.taken err.new) (spec.image_text number) result }
    ensures cause { HasCause (E.faults err.old) (E.faults err.new) result }
{
    write_parts(
        err,
        &[
            Part::Text("image refused: "),
            Part::Number(number as u64),
            Part::Text(" "),
            Part::Text(fault_name(number)),
            Part::Text("\n"),
        ],
    )
}

fn write_golden_fault<E: Sink>(err: &mut E, fault: GoldenFault) -> Result<(), Failed>
    ensures bytes { E.tells → Writes (E.taken err.old) (E.taken err.new) (spec.golden_text fault) result }
    ensures cause { HasCause (E.faults err.old) (E.faults err.new) result }
{
    match fault {
        GoldenFault::GoldenTrap(cycle) => write_parts(
            err,
            &[
                Part::Text("golden run trapped at cycle "),
                Part::Number(cycle as u64),
                Part::Text("\n"),
            ],
        ),
        GoldenFault::GoldenDetected(cycle) => write_parts(
            err,
            &[
                Part::Text("golden run detected at cycle "),
                Part::Number(cycle as u64),
                Part::Text("\n"),
            ],
        ),
        GoldenFault::GoldenLong(limit) => write_parts(
            err,
            &[
                Part::Text("golden run did not halt within "),
                Part::Number(limit as u64),
                Part::Text(" instructions\n"),
            ],
        ),
    }
}

// Writes the fault of a campaign file after the file's name in the message.
fn write_format_fault<E: Sink>(err: &mut E, file: &str, fault: FormatFault) -> Result<(), Failed>
    ensures bytes { E.tells → Writes (E.taken err.old) (E.taken err.new) (file.now ++ spec.format_text fault) result }
    ensures cause { HasCause (E.faults err.old) (E.faults err.new) result }
{
    match fault {
        FormatFault::NotACampaign => write_parts(
            err,
            &[Part::Text(file), Part::Text("1 NotACampaign\n")],
        ),
        FormatFault::Version => write_parts(err, &[Part::Text(file), Part::Text("2 Version\n")]),
        FormatFault::Cut => write_parts(err, &[Part::Text(file), Part::Text("3 Cut\n")]),
        FormatFault::BadRow { at } => write_parts(
            err,
            &[
                Part::Text(file),
                Part::Text("4 BadRow at "),
                Part::Number(at),
                Part::Text("\n"),
            ],
        ),
        FormatFault::Conflict { first, second } => write_parts(
            err,
            &[
                Part::Text(file),
                Part::Text("5 Conflict at "),
                Part::Number(first),
                Part::Text(" and "),
                Part::Number(second),
                Part::Text("\n"),
            ],
        ),
    }
}

fn write_refusal<E: Sink>(err: &mut E, file: &str, refusal: KeepRefusal) -> Result<(), Failed>
    ensures bytes { E.tells → Writes (E.taken err.old) (E.taken err.new) (file.now ++ spec.refusal_text refusal) result }
    ensures cause { HasCause (E.faults err.old) (E.faults err.new) result }
{
    match refusal {
        KeepRefusal::Format(fault) => write_format_fault(err, file, fault),
        KeepRefusal::OtherCase { at } => write_parts(
            err,
            &[
                Part::Text(file),
                Part::Text("6 OtherCase at "),
                Part::Number(at),
                Part::Text("\n"),
            ],
        ),
    }
}

fn write_other_reason<E: Sink>(err: &mut E, reason: OtherReason) -> Result<(), Failed>
    ensures bytes { E.tells → Writes (E.taken err.old) (E.taken err.new) (spec.other_text reason) result }
    ensures cause { HasCause (E.faults err.old) (E.faults err.new) result }
{
    match reason {
        OtherReason::Refused(refusal) => {
            write_refusal(err, "other campaign file refused: ", refusal)
        }
        OtherReason::TooLong => write_parts(
            err,
            &[Part::Text("other campaign file refused: 7 TooLong\n")],
        ),
        OtherReason::Disagree { cycle, cell, bit } => write_parts(
            err,
            &[
                Part::Text("other campaign file refused: 8 Disagree at cycle "),
                Part::Number(cycle as u64),
                Part::Text(" cell "),
                Part::Number(cell as u64),
                Part::Text(" bit "),
                Part::Number(bit as u64),
                Part::Text("\n"),
            ],
        ),
    }
}

fn write_stopped<E: Sink>(err: &mut E, kept: u32, jobs: u32) -> Result<(), Failed>
    ensures bytes { E.tells → Writes (E.taken err.old) (E.taken err.new) (spec.stopped_text kept jobs) result }
    ensures cause { HasCause (E.faults err.old) (E.faults err.new) result }
{
    write_parts(
        err,
        &[
            Part::Text("stopped: "),
            Part::Number(kept as u64),
            Part::Text(" of "),
            Part::Number(jobs as u64),
            Part::Text(" jobs kept\n"),
        ],
    )
}

fn write_status<E: Sink>(err: &mut E, status: Status) -> Result<(), Failed>
    ensures bytes { E.tells → Writes (E.taken err.old) (E.taken err.new) (spec.status_text status) result }
    ensures cause { HasCause (E.faults err.old) (E.faults err.new) result }
{
    match status {
        Status::Done => Ok(()),
        Status::Usage => write_usage(err),
        Status::ReadFault => write_parts(err, &[Part::Text("image could not be read\n")]),
        Status::BadImage(number) => write_image_fault(err, number),
        Status::BadGolden(fault) => write_golden_fault(err, fault),
        Status::KeepFault => write_parts(
            err,
            &[Part::Text("campaign file could not be read or written\n")],
        ),
        Status::BadKeep(refusal) => write_refusal(err, "campaign file refused: ", refusal),
        Status::Stopped { kept, jobs } => write_stopped(err, kept, jobs),
        Status::WriteFault => write_parts(err, &[Part::Text("output could not be written\n")]),
        Status::NoMemory => write_parts(err, &[Part::Text("out of memory\n")]),
        Status::BadOther(reason) => write_other_reason(err, reason),
        Status::OtherFault => write_parts(
            err,
            &[Part::Text("other campaign file could not be read\n")],
        ),
        Status::StoreFault => write_parts(err, &[Part::Text("export could not be stored\n")]),
    }
}

/// Writes the line of a status to the error output. A fault of that output has no other effect.
pub fn tell_status<E: Sink>(err: &mut E, status: Status)
    ensures told { E.tells → HasNoFault (E.faults err.old) (E.faults err.new) → E.taken err.new ≡ E.taken err.old ++ spec.status_text status }
    ensures part { E.tells → TookPart (E.taken err.old) (E.taken err.new) (spec.status_text status) }
{
    let _ = write_status(err, status);
}

fn write_no_site<E: Sink>(err: &mut E, site: Site) -> Result<(), Failed>
    ensures bytes { E.tells → Writes (E.taken err.old) (E.taken err.new) (no_site_text site) result }
    ensures cause { HasCause (E.faults err.old) (E.faults err.new) result }
{
    write_parts(
        err,
        &[
            Part::Text("no such site: cycle "),
            Part::Number(site.cycle as u64),
            Part::Text(" cell "),
            Part::Number(site.cell as u64),
            Part::Text(" bit "),
            Part::Number(site.bit as u64),
            Part::Text("\n"),
        ],
    )
}

fn write_site_status<E: Sink>(err: &mut E, usage: &str, status: SiteStatus) -> Result<(), Failed>
    ensures bytes { E.tells → Writes (E.taken err.old) (E.taken err.new) (site_status_text usage.now status) result }
    ensures cause { HasCause (E.faults err.old) (E.faults err.new) result }
{
    match status {
        SiteStatus::NoSite(site) => write_no_site(err, site),
        SiteStatus::InputFault => write_parts(err, &[Part::Text("input could not be read\n")]),
        SiteStatus::Ended(Status::Usage) => write_parts(err, &[Part::Text(usage)]),
        SiteStatus::Ended(answer) => write_status(err, answer),
    }
}

/// Writes the line of a status of a call that names sites to the error output. `usage` is the usage text of the
/// program. A fault of that output has no other effect.
pub fn tell_site_status<E: Sink>(err: &mut E, usage: &str, status: SiteStatus)
    ensures told { E.tells → HasNoFault (E.faults err.old) (E.faults err.new)
        → E.taken err.new ≡ E.taken err.old ++ site_status_text usage.now status }
    ensures part { E.tells → TookPart (E.taken err.old) (E.taken err.new) (site_status_text usage.now status) }
{
    let _ = write_site_status(err, usage, status);
}
