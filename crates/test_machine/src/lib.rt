//! Tests of the definitions' types, of the machine, of its runs and of samples, by public calls only. They are a
//! crate of their own, so that those crates are proved once, and their must-fail edits need not wait for tests.
#![tactic(auto)]

#[cfg(test)]
mod tests_of_counting_loops;
#[cfg(test)]
mod tests_of_experiment;
#[cfg(test)]
mod tests_of_fs_model;
#[cfg(test)]
mod tests_of_golden_trace;
#[cfg(test)]
mod tests_of_known_states;
#[cfg(test)]
mod tests_of_live_registers;
#[cfg(test)]
mod tests_of_outcome_class;
#[cfg(test)]
mod tests_of_rv_decode;
#[cfg(test)]
mod tests_of_rv_machine;
#[cfg(test)]
mod tests_of_sampling;
#[cfg(test)]
mod tests_of_shared_sites;
#[cfg(test)]
mod tests_of_snapshot_store;
