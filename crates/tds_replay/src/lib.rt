//! The command: a job run from a reader to a writer, its lines on standard error and its exit status. The program
//! `replay` gives it the job that its arguments mean, the file or standard input, and the standard streams.
#![tactic(auto)]

mod lines;
mod memory;
mod pieces;
mod responses;
mod running;
mod status;
mod usage;

pub use lines::{say_answer, say_unreadable, say_want_of_memory};
pub use memory::Memory;
pub use pieces::NoteFailed;
pub use running::{perform, perform_in};
pub use status::Status;
pub use tds_arguments::{Job, Usage, Work, parse};
pub use usage::say_usage;
