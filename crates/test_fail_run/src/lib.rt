//! Tests of whole calls of `fail_star`, `fail_export` and `fail_window`, over devices in memory. They are a crate of their own, so
//! that the must-fail edits of fail_cli need not wait for them, and a single one, since a crate of tests contains all
//! code that it calls, which takes long to compile.
#![tactic(auto)]

#[cfg(test)]
mod campaign_files;
#[cfg(test)]
mod exports;
#[cfg(test)]
mod tests;
#[cfg(test)]
mod windows;
