//! The reads of the past, as queries of the tables: why an item left, its builds, a history from a place on, and the
//! deliveries that were accepted. Each seeks by an index or a rowid, and reads only the rows that it returns.
//!
//! ```text
//! let left = left(&mut conn, serial)?;
//! let builds = last_builds(&mut conn, serial, 1000)?;
//! history_from(alloc, &mut conn, &queue, 41, front, &mut tap)?;
//! let told = deliveries(alloc, &mut conn, Some(id), 1000, front, &mut tap)?;
//! ```
#![tactic(auto)]

mod builds;
mod delivery_reads;
mod delivery_rows;
mod history_reads;
pub mod laws;
mod left_reads;

pub use builds::{build_count, last_builds};
pub use delivery_reads::deliveries;
pub use history_reads::history_from;
pub use left_reads::left;
