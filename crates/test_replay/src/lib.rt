//! Tests of whole calls of `fail_replay`, over devices in memory.
#![tactic(auto)]

#[cfg(test)]
#[cfg(test)]
mod tests;
