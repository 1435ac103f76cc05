//! What is written to a gate's file but for its upgrade: its tables and first rows, the edits of a delivery, all or
//! none, and other settings.
//!
//! ```text
//! let mut tx = conn.transaction();
//! make_tables(&mut tx)?;
//! write_first(&mut tx, settings, queues)?;
//! tx.commit()?;
//! apply(alloc, &mut conn, &names, &edits)?;
//! ```
#![tactic(auto)]

mod adopting;
mod applying;
mod filling;
mod making;

pub use adopting::adopt;
pub use applying::{apply, apply_all, is_among};
pub use filling::{add_queues, write_first};
pub use making::make_tables;
