//! The options and flags of a command, as `clap` reads them.
ghost use Rattle.std.specs.Prelude.{◌≡◌, ◌≢◌, ◌↔◌, IfOk, OnOk, true, false, [], ◌∷◌, is_some, map, string_bytes};
ghost use Rattle.clap.specs.Words.{app_of};
ghost use Rattle.command_line.specs.Options as spec;
ghost use Rattle.command_line.specs.Said.{text_in};

use crate::commands::{OptionSet, row_in};
use crate::line::LineRefusal;
use clap::error::ErrorKind;
use clap::parser::ValueSource;
use clap::{Arg, ArgAction, ArgMatches};
use std::alloc::{AllocError, Global};

fn bare_app<'a>(alloc: Global, name: &'a str) -> clap::Command<'a>
    ensures { app_of result ≡ spec.bare_app name.entry.now }
{
    clap::Command::new(alloc, name).disable_help_flag(true)
}

// Returns the command with one more option.
fn with_option<'a>(
    alloc: Global,
    app: clap::Command<'a>,
    name: &'a str,
) -> Result<clap::Command<'a>, AllocError>
    ensures { IfOk result (λ made. app_of made ≡ spec.with_rules (app_of app.entry) (map spec.option_rule (name.entry.now ∷ []))) }
{
    app.arg(Arg::new(alloc, name).long(name))
}

// Returns the command with these options added.
fn with_options<'a>(
    alloc: Global,
    app: clap::Command<'a>,
    names: &'a [&'a str],
) -> Result<clap::Command<'a>, AllocError>
    ensures { IfOk result (λ made. app_of made ≡ spec.with_rules (app_of app.entry) (map spec.option_rule (map (λ s. s.now) names.now))) }
{
    let mut app = app;
    for name in names {
        app = with_option(alloc, app, name)?;
    }
    Ok(app)
}

// Returns the command with one more flag.
fn with_flag<'a>(
    alloc: Global,
    app: clap::Command<'a>,
    name: &'a str,
) -> Result<clap::Command<'a>, AllocError>
    ensures { IfOk result (λ made. app_of made ≡ spec.with_rules (app_of app.entry) (map spec.flag_rule (name.entry.now ∷ []))) }
{
    app.arg(Arg::new(alloc, name).long(name).action(ArgAction::SetTrue))
}

// Returns the command with these flags added.
fn with_flags<'a>(
    alloc: Global,
    app: clap::Command<'a>,
    names: &'a [&'a str],
) -> Result<clap::Command<'a>, AllocError>
    ensures { IfOk result (λ made. app_of made ≡ spec.with_rules (app_of app.entry) (map spec.flag_rule (map (λ s. s.now) names.now))) }
{
    let mut app = app;
    for name in names {
        app = with_flag(alloc, app, name)?;
    }
    Ok(app)
}

// Returns the flat command that `clap` reads.
fn app_for<'a>(alloc: Global, set: OptionSet) -> Result<clap::Command<'a>, AllocError>
    ensures { IfOk result (λ made. app_of made ≡ spec.app_for set) }
{
    let shape = row_in(set);
    let bare = bare_app(alloc, shape.word);
    let app = with_options(alloc, bare, shape.options)?;
    with_flags(alloc, app, shape.flags)
}

fn refusal_of(kind: ErrorKind) -> LineRefusal
    ensures { result ≡ LineRefusal.Usage ↔ kind ≢ ErrorKind.OutOfMemory }
{
    match kind {
        ErrorKind::OutOfMemory => LineRefusal::NoMemory,
        _ => LineRefusal::Usage,
    }
}

/// Parses the words by `clap`, which ignores the first one.
pub(crate) fn parsed<'w>(
    alloc: Global,
    set: OptionSet,
    words: &'w [String],
) -> Result<ArgMatches<'w>, LineRefusal>
    ensures takes { OnOk result (spec.takes_words set (map string_bytes words.entry.now) ≡ true) }
    ensures texts { IfOk result (λ m. spec.texts_of m ≡ spec.texts_given set (map string_bytes words.entry.now)) }
    ensures usage { result ≡ Err LineRefusal.Usage → spec.takes_words set (map string_bytes words.entry.now) ≡ false }
{
    let Ok(app) = app_for(alloc, set) else {
        return Err(LineRefusal::NoMemory);
    };
    match app.try_get_matches_from(words) {
        Ok(matches) => Ok(matches),
        Err(e) => Err(refusal_of(e.kind())),
    }
}

/// Returns the text that the words gave for a name: the value of an option, or `true` for a flag.
#[tactic(auto, using(crate::proofs::Found::text_given, crate::proofs::Found::no_text_of_default, crate::proofs::Found::no_text))]
pub(crate) fn text_of<'w>(matches: &ArgMatches<'w>, name: &str) -> Option<&'w str>
    ensures { text_in result ≡ spec.texts_of matches.now name.now }
{
    match matches.value_source(name)? {
        ValueSource::CommandLine => matches.get_str(name),
        ValueSource::DefaultValue => None,
    }
}

/// Returns whether the words gave the option or the flag with this name.
pub(crate) fn is_given(matches: &ArgMatches<'_>, name: &str) -> bool
    ensures { result ≡ is_some (spec.texts_of matches.now name.now) }
{
    text_of(matches, name).is_some()
}
