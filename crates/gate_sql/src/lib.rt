//! A gate's book over the tables of a file.
//!
//! ```text
//! let book = SqlBook::create(alloc, conn, &config)?; // once
//! let book = SqlBook::open(alloc, conn, &config)?; // from then on
//! let mut gate = Gate::new(config, book);
//! ```
#![tactic(auto)]

mod archive;
mod book;
mod creating;
pub mod laws;
mod opening;
mod reads;
mod reopening;

pub use book::SqlBook;
pub use gate_migration::{Migrated, migrate};
