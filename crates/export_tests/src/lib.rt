//! Tests of `tds_rows` and `tds_export`, by their public calls, and of the command, `tds_arguments` and `tds_replay`.
//! They stand apart from the code that they test, since a crate with tests is proved once with them and once without.
#![tactic(auto)]

#[cfg(test)]
mod checks;
#[cfg(test)]
mod command;
#[cfg(test)]
mod export;
#[cfg(test)]
mod rows;
