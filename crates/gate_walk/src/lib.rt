//! The walk: what a delivery on an item of a queue changes behind it, worked out row by row, with as few
//! rows as can change. Nothing is stored here, no line of a queue is built, and rows are fetched by the
//! caller, by their keys.
//!
//! Where each promise stands, for an accepted delivery on an item of a lawful state:
//!
//! - `Walk::start`, clause `for_a_delivery`: with nothing visited, the items before the touched one are already
//!   as a rebase and then a sweep of the whole state leave them, and all else is as it was.
//! - `Walk::visit`, clause `settles`: before the visit of the row that is wanted, the edits so far settle the
//!   queue below that row; behind it, up to and with that row; at a stop, or where no row is wanted, all of it.
//!   The serials asked for rise; where a build ended and the touched item stays with its mark, the first visit
//!   stops; while no line has changed, a visit of a non-failing item that stays so asks for no next row but one
//!   that needs what has gone. Its clauses `visited`, `next` and `same`: the walk behind the visit, the row that
//!   is wanted next, and that a visit without memory changes nothing.
//! - `laws::a_walk_is_enough`: the same of the whole walk at once, over all queues.
//! - `laws::a_walk_stops`, `visits_are_the_walk` and `visits_go_on`: where a walk stops, and loops of visits, said
//!   of the definitions.
//!
//! `Walk::gone`, `Walk::edits` and `Walk::into_edits` say what the walk holds, and take no memory.
//!
//! ```text
//! let mut walk = Walk::start(alloc, queue, touched)?;
//! let next = walk.visit(alloc, seen.as_ref())?; // `Go` or `Need` behind a serial: see that row next; `Stop`
//! let edits = walk.into_edits();
//! ```
#![tactic(auto)]

pub mod laws;
mod seen;
mod told;
mod walk;

pub use seen::SeenNeed;
pub use walk::{Next, QueueFacts, Seen, TakenOut, Touched, Walk};
