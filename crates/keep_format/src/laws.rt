//! Laws about the format, each the contract of a call that does nothing.
ghost use Rattle.keep_format.specs.Laws.{ReadAgain, RowsReadAgain};

/// Reading returns what was written.
pub fn read_again()
    ensures { ReadAgain }
{}

/// Reading returns the rows that were written, also rows that disagree, up to the search for a conflict.
pub fn rows_read_again()
    ensures { RowsReadAgain }
{}
