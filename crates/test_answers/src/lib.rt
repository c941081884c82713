//! Tests of whole calls of `fail_answers`, over devices in memory.
#![tactic(auto)]

#[cfg(test)]
mod tests;
