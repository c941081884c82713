//! The commands on a campaign file, one per module: `run`, `merge`, `report`, `audit` and `symbols` (in
//! `report_command` and so on, because libraries and calls have the short names), and `demo`, which is a `run`
//! over a file in memory. `sample` is here too: it has no file, and runs jobs of a campaign. `causes` and `trust` have no
//! command: they say what the cause of each answer of a call is, and when the outcomes in a file are right.
#![tactic(auto)]

pub mod audit_command;
pub mod causes;
pub mod demo;
pub mod merge;
pub mod report_command;
pub mod run;
pub mod sample;
pub mod symbols_command;
pub mod trust;
