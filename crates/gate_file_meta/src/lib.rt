//! Whether a file is a gate's, of which version, and which settings it keeps: what its table `meta` says.
//!
//! ```text
//! match kept_in(alloc, &mut conn, settings.as_str(), &config) {
//!     Ok(None) => {}       // it keeps these settings
//!     Ok(Some(kept)) => {} // it keeps others, in whose place these may be taken
//!     Err(fault) => {}     // why it isn't opened
//! }
//! ```
#![tactic(auto)]

mod meta;
mod names;

pub use meta::{fault_of, is_text, kept_in, read_meta, value_for};
pub use names::is_any_used;
