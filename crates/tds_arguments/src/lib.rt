//! The arguments of the command: the command line as it is parsed, and the job that arguments mean, or why they
//! mean none.
#![tactic(auto)]

mod help;
mod job;
mod options;
mod parsing;
mod usage;
mod version;

pub use job::{Job, Work};
pub use parsing::parse;
pub use usage::Usage;
