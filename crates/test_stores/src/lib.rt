//! Tests of tables of jobs by public calls only. They are a crate of their own, so that those crates are proved
//! once, and their must-fail edits need not wait for tests.
#![tactic(auto)]

#[cfg(test)]
#[cfg(test)]
mod tests_of_row_store;
#[cfg(test)]
mod tests_of_sqlite_rows;
