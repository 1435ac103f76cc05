//! What the program does, over the words of a command line and three streams.
//!
//! ```text
//! let status = program(&rt, &words, &mut input, &mut output, &mut errors);
//! // 0: done, 1: a fault, 2: the words are refused
//! // and of words that are read already: `run(&rt, cmd, &mut input, &mut output, &mut errors)`
//! ```
#![tactic(auto)]

mod entry;
mod machine;
mod new_file;
mod run;

pub use entry::{program, unread};
pub use machine::Databases;
pub use run::{Fault, ended};
