//! The words with which a program is called.
ghost use Rattle.std.specs.Prelude.{◌≡◌, ◌+◌, ◌^◌, ◌<◌, ◌≤◌, IfOk, Some, None, map, string_bytes, option_map};
ghost use Rattle.std.specs.List.{list_all};
ghost use Rattle.command_line.specs.Answers.{answers_data, answers_line};
ghost use Rattle.command_line.specs.Line.{case_from, case_of, export_line, files_in, given_after, is_file_word, line, line_of, request_of};
ghost use Rattle.command_line.specs.Options.{texts_of};
ghost use Rattle.command_line.specs.declared.commands.OptionSet.TheVariants.{OfCommand};
ghost use Rattle.command_line.specs.Ranges.{max_files};
ghost use Rattle.command_line.specs.Window.{window_data, window_line};

use crate::answers::AnswersLine;
use crate::commands::{Command, OptionSet, command_named, shape_of};
use crate::line::{CaseLine, LineRefusal};
use crate::options::parsed;
use crate::request::Request;
use crate::said::read_case;
use crate::window::WindowLine;
use clap::ArgMatches;
use std::alloc::Global;

// The number of files in a line of `fail_export`: IMAGE, KEEP and DB.
const EXPORT_FILES: usize = 3;

// The number of files in a line of `fail_window`: IMAGE and KEEP.
const WINDOW_FILES: usize = 2;

// The number of files in a line of `fail_answers`: IMAGE and KEEP.
const ANSWERS_FILES: usize = 2;

/// Returns whether the word can name a file.
pub(crate) fn is_file_word(word: &str) -> bool
    ensures { result ≡ is_file_word word.now }
{
    !word.starts_with('-')
}

fn are_file_words(words: &[String]) -> bool
    ensures { result ≡ list_all (λ word. is_file_word (string_bytes word)) words.now }
{
    words.iter().all(|word| is_file_word(word.as_str()))
}

// Returns the words of `n` files, after the first `place` words.
fn files_of<'w>(place: usize, n: usize, words: &'w [String]) -> Option<&'w [String]>
    requires { place + n < 2 ^ 64 }
    ensures { option_map (λ files. map string_bytes files.now) result ≡ files_in place n (map string_bytes words.entry.now) }
{
    if words.len() < place + n {
        return None;
    }
    let (_, rest) = words.split_at(place);
    let (files, _) = rest.split_at(n);
    if are_file_words(files) {
        Some(files)
    } else {
        None
    }
}

// Reads `n` files after the first `place` words, and then the options of the set. `clap` gets the last word before
// the options as the program's name, which it ignores.
fn read_given<'w>(
    alloc: Global,
    set: OptionSet,
    place: usize,
    n: usize,
    words: &'w [String],
) -> Result<(&'w [String], ArgMatches<'w>), LineRefusal>
    requires least { 1 ≤ place }
    requires most { place + n < 2 ^ 64 }
    ensures ok { IfOk result (λ r. given_after set place n (map string_bytes words.entry.now) ≡ Some (map string_bytes r.0.now, texts_of r.1)) }
    ensures usage { result ≡ Err LineRefusal.Usage → given_after set place n (map string_bytes words.entry.now) ≡ None }
{
    let Some(files) = files_of(place, n, words) else {
        return Err(LineRefusal::Usage);
    };
    let (_, passed) = words.split_at(place + n - 1);
    match parsed(alloc, set, passed) {
        Ok(matches) => Ok((files, matches)),
        Err(refusal) => Err(refusal),
    }
}

// Reads the words of a command, which is the second word.
fn read_command<'w>(
    alloc: Global,
    command: Command,
    words: &'w [String],
) -> Result<Request<'w>, LineRefusal>
    ensures ok { IfOk result (λ r. line_of command (map string_bytes words.entry.now) ≡ Some (request_of r)) }
    ensures usage { result ≡ Err LineRefusal.Usage → line_of command (map string_bytes words.entry.now) ≡ None }
{
    let set = OptionSet::OfCommand(command);
    let (files, matches) = match read_given(alloc, set, 2, shape_of(command).files, words) {
        Ok(given) => given,
        Err(refusal) => return Err(refusal),
    };
    match Request::read(command, files, &matches) {
        Some(request) => Ok(request),
        None => Err(LineRefusal::Usage),
    }
}

/// Reads `n` files after the first `place` words, and then the options of a case.
pub(crate) fn read_case_from<'w>(
    alloc: Global,
    place: usize,
    n: usize,
    words: &'w [String],
) -> Result<CaseLine<'w>, LineRefusal>
    requires least { 1 ≤ place }
    requires most { place + n < 2 ^ 64 }
    ensures ok { IfOk result (λ asked. case_from place n (map string_bytes words.entry.now) ≡ Some (case_of asked)) }
    ensures usage { result ≡ Err LineRefusal.Usage → case_from place n (map string_bytes words.entry.now) ≡ None }
{
    let (files, matches) = match read_given(alloc, OptionSet::OfCase, place, n, words) {
        Ok(given) => given,
        Err(refusal) => return Err(refusal),
    };
    match read_case(OptionSet::OfCase, files, &matches) {
        Some(case) => Ok(case),
        None => Err(LineRefusal::Usage),
    }
}

/// Reads the words of `fail_star`, of which the first is its name.
///
/// # Errors
///
/// `Usage` if the words are not a valid line, and `NoMemory` if memory is refused.
pub fn read_line<'w>(alloc: Global, words: &'w [String]) -> Result<Request<'w>, LineRefusal>
    ensures ok { IfOk result (λ r. line (map string_bytes words.entry.now) ≡ Some (request_of r)) }
    ensures usage { result ≡ Err LineRefusal.Usage → line (map string_bytes words.entry.now) ≡ None }
{
    let Some(word) = words.get(1) else {
        return Err(LineRefusal::Usage);
    };
    match command_named(word.as_str()) {
        Some(command) => read_command(alloc, command, words),
        None => Err(LineRefusal::Usage),
    }
}

/// Reads the words of `fail_export`, of which the first is its name: IMAGE, KEEP and DB, and then the options of a
/// case.
///
/// # Errors
///
/// `Usage` if the words are not a valid line, and `NoMemory` if memory is refused.
pub fn read_export<'w>(alloc: Global, words: &'w [String]) -> Result<CaseLine<'w>, LineRefusal>
    ensures ok { IfOk result (λ asked. export_line (map string_bytes words.entry.now) ≡ Some (case_of asked)) }
    ensures usage { result ≡ Err LineRefusal.Usage → export_line (map string_bytes words.entry.now) ≡ None }
{
    read_case_from(alloc, 1, EXPORT_FILES, words)
}

/// Reads the words of `fail_window`, of which the first is its name: IMAGE and KEEP, and then the options, of which
/// at least one says a part of the run.
///
/// # Errors
///
/// `Usage` if the words are not a valid line, and `NoMemory` if memory is refused.
pub fn read_window<'w>(alloc: Global, words: &'w [String]) -> Result<WindowLine<'w>, LineRefusal>
    ensures ok { IfOk result (λ l. window_line (map string_bytes words.entry.now) ≡ Some (window_data l)) }
    ensures usage { result ≡ Err LineRefusal.Usage → window_line (map string_bytes words.entry.now) ≡ None }
{
    let (files, matches) = match read_given(alloc, OptionSet::OfWindow, 1, WINDOW_FILES, words) {
        Ok(given) => given,
        Err(refusal) => return Err(refusal),
    };
    match WindowLine::read(files, &matches) {
        Some(line) => Ok(line),
        None => Err(LineRefusal::Usage),
    }
}

/// Reads the words of `fail_answers`, of which the first is its name: IMAGE and KEEP, and then the options.
///
/// # Errors
///
/// `Usage` if the words are not a valid line, and `NoMemory` if memory is refused.
pub fn read_answers<'w>(alloc: Global, words: &'w [String]) -> Result<AnswersLine<'w>, LineRefusal>
    ensures ok { IfOk result (λ l. answers_line (map string_bytes words.entry.now) ≡ Some (answers_data l)) }
    ensures usage { result ≡ Err LineRefusal.Usage → answers_line (map string_bytes words.entry.now) ≡ None }
{
    let (files, matches) = match read_given(alloc, OptionSet::OfAnswers, 1, ANSWERS_FILES, words) {
        Ok(given) => given,
        Err(refusal) => return Err(refusal),
    };
    AnswersLine::read(alloc, files, &matches)
}
