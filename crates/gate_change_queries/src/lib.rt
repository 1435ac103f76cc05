//! The reads of changes, of those that are ready, and of kept deliveries, as queries of the tables.
//!
//! ```text
//! let change = change(&mut conn, number)?;
//! let ready = ready(&mut conn)?; // in order of approval
//! let kept = delivery(&mut conn, &id)?;
//! ```
#![tactic(auto)]

mod changes;
mod deliveries;
mod ready_reads;

pub use changes::{approval, change};
pub use deliveries::delivery;
pub use ready_reads::{ready, ready_needing};
