//! Tests of the crates below the rows, by their public calls: a module for each crate. They stand apart from the
//! code that they test, since a crate with tests is proved once with them and once without.
#![tactic(auto)]

#[cfg(test)]
mod checks;
#[cfg(test)]
mod columns;
#[cfg(test)]
mod csv;
#[cfg(test)]
mod meter;
#[cfg(test)]
mod packet;
#[cfg(test)]
mod text;
#[cfg(test)]
mod values;
