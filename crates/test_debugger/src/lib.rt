//! Tests of what serves a debugger: packets, runs that are set to places, and a session. They are a crate of their own,
//! so that those crates are proved once.
#![tactic(auto)]

#[cfg(test)]
mod tests_of_debug_session;
#[cfg(test)]
mod tests_of_gdb_packets;
#[cfg(test)]
mod tests_of_timeline;
