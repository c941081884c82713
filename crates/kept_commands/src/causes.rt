//! The cause of each answer of a call, by its words, its image and its campaign files. The definitions in `specs/`
//! are for the crates of the programs that use a campaign file.

ghost use Rattle.kept_commands.specs.Causes.{OneAnswer};

/// States that a call has one answer by its words, its image and its campaign files, if no device fails and memory
/// suffices.
pub fn one_answer()
    ensures { OneAnswer }
{}
