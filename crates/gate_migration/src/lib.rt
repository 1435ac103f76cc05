//! A gate's file of schema 1 made one of schema 2, all or none.
//!
//! ```text
//! match migrate(alloc, &mut conn, &config)? {
//!     Migrated::Done => {}
//!     Migrated::Already => {}
//! }
//! ```
#![tactic(auto)]

mod migrating;
mod planning;
mod upgrading;

pub use migrating::{Migrated, migrate};
