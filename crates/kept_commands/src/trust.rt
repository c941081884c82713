//! When the outcomes in a campaign file are right: by the file's rows, and by the board that it gives.

ghost use Rattle.kept_commands.specs.Keep.{RowsAndBoards};

/// States that the rows of a file that gives a board to a case are right exactly if the outcomes on the board are.
pub fn rows_and_boards()
    ensures { RowsAndBoards }
{}
