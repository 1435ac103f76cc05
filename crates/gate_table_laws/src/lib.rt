//! When the tables of a file hold a content, and that each read of them then answers as the content does.
//!
//! ```text
//! the_rows_are_whole();
//! every_read_is_told(); // what a query finds of the tables is what the content says
//! ```
#![tactic(auto)]

pub mod laws;
