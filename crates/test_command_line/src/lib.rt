//! Tests of the command line by public calls only. They are a crate of their own, so that command_line is proved
//! once, and its must-fail edits need not wait for tests.
#![tactic(auto)]

#[cfg(test)]
#[cfg(test)]
mod lines;
#[cfg(test)]
mod refused;
#[cfg(test)]
mod tests_of_answers;
#[cfg(test)]
mod tests_of_command_line;
#[cfg(test)]
mod tests_of_replays;
#[cfg(test)]
mod tests_of_windows;
