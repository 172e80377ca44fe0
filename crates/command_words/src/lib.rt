//! The words of a command line: their grammar, and the job that they ask for.
#![tactic(auto)]

mod jobs;
mod options;

pub use jobs::{Job, WordsFault, read_words};
