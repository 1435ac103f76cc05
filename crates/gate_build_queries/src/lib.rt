//! The reads of plans and builds as queries of the tables: of one item, or of a stretch of a queue's.
//!
//! ```text
//! let plan = plan(&mut conn, serial)?;
//! let builds = builds_between(&mut conn, &queue, above, last)?;
//! ```
#![tactic(auto)]

mod ahead;
mod builds;
mod item_plans;
mod plans;

pub use builds::{build, builds_between, live_builds};
pub use item_plans::plans_between;
pub use plans::plan;
