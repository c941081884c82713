//! Tests of the way from the touches of a run to a campaign's totals, by public calls only. They are a crate of
//! their own, so that those crates are proved once, and their must-fail edits need not wait for tests.
#![tactic(auto)]

#[cfg(test)]
#[cfg(test)]
mod tests_of_campaign;
#[cfg(test)]
mod tests_of_crew;
#[cfg(test)]
mod tests_of_def_use;
#[cfg(test)]
mod tests_of_event_core;
#[cfg(test)]
mod tests_of_fan_out;
#[cfg(test)]
mod tests_of_fault_space;
#[cfg(test)]
mod tests_of_job_queue;
#[cfg(test)]
mod tests_of_result_desk;
#[cfg(test)]
mod tests_of_samples;
#[cfg(test)]
mod tests_of_shards;
#[cfg(test)]
mod tests_of_site_counts;
#[cfg(test)]
mod tests_of_spacings;
#[cfg(test)]
mod tests_of_windows;
#[cfg(test)]
mod totals;
