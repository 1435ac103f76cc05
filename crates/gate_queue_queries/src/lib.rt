//! The reads of queues, of their landings and reports, and of the counters, as queries of the tables; and what is read
//! of a file of schema 1. The counts and the histories go through all rows that they count or write.
//!
//! ```text
//! let window = window(&mut conn, &queue)?;
//! let counters = counters(&mut conn)?;
//! history(alloc, &mut conn, &queue, front, &mut tap)?;
//! ```
#![tactic(auto)]

mod counter_reads;
pub mod first_reads;
mod queues;
mod report_lines;
mod report_reads;

pub use counter_reads::counters;
pub use queues::{item_count, landing_before, landing_count, reports, window};
pub use report_lines::{write_end, write_reports};
pub use report_reads::history;
