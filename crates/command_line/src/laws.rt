//! Laws about the definitions.
ghost use Rattle.command_line.specs.Commands.{WordsNameCommands};
ghost use Rattle.command_line.specs.Grammar.{IsSpelledLine, IsSpelledOut};

/// The word of each command names that command.
#[tactic(auto, using(crate::proofs::CommandWords::word_names_command))]
pub fn words_name_commands()
    ensures { WordsNameCommands }
{}

/// What `clap` states about a command's words is what `specs/Grammar` says without `clap`.
pub fn spelled_out()
    ensures options { IsSpelledOut }
    ensures whole { IsSpelledLine }
{}
