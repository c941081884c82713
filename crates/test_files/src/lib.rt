//! Tests of devices, images, campaign files, merges and reports, by public calls only. They are a crate of their own,
//! so that those crates are proved once, and their must-fail edits need not wait for tests.
#![tactic(auto)]

#[cfg(test)]
mod deaf;
#[cfg(test)]
mod shards;
#[cfg(test)]
mod tests_of_board_of;
#[cfg(test)]
mod tests_of_elf_loader;
#[cfg(test)]
mod tests_of_elf_symbols;
#[cfg(test)]
mod tests_of_fs_outside;
#[cfg(test)]
mod tests_of_keep_format;
#[cfg(test)]
mod tests_of_report;
#[cfg(test)]
mod tests_of_result_keeper;
#[cfg(test)]
mod tests_of_shard_merge;
#[cfg(test)]
mod tests_of_symbols;
