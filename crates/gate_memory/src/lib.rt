//! The tables of a book in memory: sorted rows beside the indexes by which they are found. A change of one is made in
//! two steps: `make_room` takes all memory that it will need, and may be refused it; then the change itself can't fail.
//!
//! ```text
//! plans.make_room(1)?;
//! plans.put(plan); // takes no memory
//! let plan = plans.get(serial)?;
//! ```
#![tactic(auto)]

mod builds;
mod changes;
mod collecting;
mod drawn;
mod holding;
pub mod named;
mod needs;
mod pairs;
mod plans;
mod queues;
mod replies;
mod reports;
mod sorted;
mod telling;

pub use builds::BuildTable;
pub use changes::ChangeTable;
pub use collecting::{builds_of, needing_of, plans_of};
pub use drawn::LastNumbers;
pub use holding::{HoldsQueue, apply_to_queues, item_in, make_queues_room, queue_in, queued_in};
pub use needs::count_needs;
pub use plans::PlanTable;
pub use queues::QueueTable;
pub use replies::ReplyTable;
pub use sorted::{Keyed, at, position_at, put, put_at, remove};
