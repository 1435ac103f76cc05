//! The rows of the gate's tables: each edit as statements within a transaction.
//!
//! ```text
//! let mut tx = conn.transaction();
//! apply_one(alloc, &mut tx, &edit)?;
//! tx.commit()?;
//! ```
#![tactic(auto)]

mod ahead;
mod apply;
mod builds;
mod changes;
mod history;
mod items;
pub mod laws;
mod numbers;
mod plans;
mod statement;
pub mod values;

pub use ahead::write_ahead;
pub use apply::apply_one;
