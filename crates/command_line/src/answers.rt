//! The meaning of the words of `fail_answers`.
ghost use Rattle.std.specs.Prelude.{◌≡◌, ◌≤◌, IfOk, IfSome, Some, None, Err};
ghost use Rattle.command_line.specs.Chosen as spec;
ghost use Rattle.command_line.specs.Options.{texts_of};
ghost use Rattle.command_line.specs.Ranges.{max_workers};
ghost use Rattle.command_line.specs.Said.{text_in};

use crate::commands::OptionSet;
use crate::line::{CaseLine, LineRefusal};
use crate::options::text_of;
use crate::ranges::{DEFAULT_WORKERS, MAX_WORKERS};
use crate::said::{number_or, read_case};
use clap::ArgMatches;
use fs_model::Outcome;
use std::alloc::Global;

/// The meaning of the words of `fail_answers`.
#[derive(Drop)]
pub struct AnswersLine<'w> {
    /// IMAGE and KEEP, and the options of the case.
    pub case: CaseLine<'w>,
    /// The number of workers that run the jobs.
    pub workers: u32,
    /// The outcomes of the jobs that are run, in the order of the words.
    pub chosen: Vec<Outcome>,
    ghost least_workers: { 1 ≤ workers },
    ghost most_workers: { workers ≤ max_workers },
}

// Returns the outcome that a word names.
fn outcome_named(word: &str) -> Option<Outcome>
    ensures { result ≡ spec.outcome_named word.now }
{
    Outcome::ALL
        .iter()
        .copied()
        .find(|outcome| outcome.word() == word)
}

// Returns the outcomes that the words between the commas of a text name.
fn outcomes_in(alloc: Global, text: &str) -> Result<Vec<Outcome>, LineRefusal>
    ensures ok { IfOk result (λ outcomes. spec.outcomes_in text.now ≡ Some outcomes.items) }
    ensures usage { result ≡ Err LineRefusal.Usage → spec.outcomes_in text.now ≡ None }
{
    let mut outcomes = Vec::new(alloc);
    for word in text.split(',') {
        let Some(outcome) = outcome_named(word) else {
            return Err(LineRefusal::Usage);
        };
        if outcomes.push(outcome).is_err() {
            return Err(LineRefusal::NoMemory);
        }
    }
    Ok(outcomes)
}

// Returns the outcome `silent` alone.
fn only_silent(alloc: Global) -> Result<Vec<Outcome>, LineRefusal>
    ensures ok { IfOk result (λ outcomes. outcomes.items ≡ spec.only_silent) }
    ensures no_usage { result ≡ Err LineRefusal.Usage → ⊥ }
{
    let mut outcomes = Vec::new(alloc);
    if outcomes.push(Outcome::Silent).is_err() {
        return Err(LineRefusal::NoMemory);
    }
    Ok(outcomes)
}

// Returns the outcomes that the value of the option names; without the option `silent` alone.
fn outcomes_or(alloc: Global, value: Option<&str>) -> Result<Vec<Outcome>, LineRefusal>
    ensures ok { IfOk result (λ outcomes. spec.outcomes_or (text_in value.entry) ≡ Some outcomes.items) }
    ensures usage { result ≡ Err LineRefusal.Usage → spec.outcomes_or (text_in value.entry) ≡ None }
{
    match value {
        Some(text) => outcomes_in(alloc, text),
        None => only_silent(alloc),
    }
}

fn read_workers(matches: &ArgMatches<'_>) -> Option<u32>
    ensures value { result ≡ spec.workers_said (texts_of matches.now) }
    ensures least { IfSome result (λ n. 1 ≤ n) }
    ensures most { IfSome result (λ n. n ≤ max_workers) }
{
    Some(number_or(DEFAULT_WORKERS, 1, MAX_WORKERS, text_of(matches, "workers"))? as u32)
}

impl<'w> AnswersLine<'w> {
    ghost use Rattle.std.specs.Prelude.{map, string_bytes};
    ghost use Rattle.command_line.specs.Answers.{answers_data, answers_said};

    /// Returns the line of these files and the given options.
    pub(crate) fn read(
        alloc: Global,
        files: &'w [String],
        matches: &ArgMatches<'w>,
    ) -> Result<AnswersLine<'w>, LineRefusal>
        ensures ok { IfOk result (λ l. answers_said (map string_bytes files.entry.now) (texts_of matches.now) ≡ Some (answers_data l)) }
        ensures usage { result ≡ Err LineRefusal.Usage → answers_said (map string_bytes files.entry.now) (texts_of matches.now) ≡ None }
    {
        let Some(case) = read_case(OptionSet::OfAnswers, files, matches) else {
            return Err(LineRefusal::Usage);
        };
        let Some(workers) = read_workers(matches) else {
            return Err(LineRefusal::Usage);
        };
        match outcomes_or(alloc, text_of(matches, "outcome")) {
            Ok(chosen) => Ok(AnswersLine {
                case,
                workers,
                chosen,
            }),
            Err(refusal) => Err(refusal),
        }
    }
}
