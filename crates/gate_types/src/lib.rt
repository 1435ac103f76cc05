//! What every part of the gate speaks of: numbers and names in their ranges, records, settings,
//! deliveries with their replies and refusals, edits, taps, and the one text of a delivery. With them
//! stand the definitions of all rules, and laws of some of these.
//!
//! ```text
//! let change = ChangeNo::new(101)?;
//! let queue = Name::new(text)?;
//! let text = canonical(alloc, &Delivery::Approved { change, revision })?;
//! ```
#![tactic(auto)]

pub mod adopting;
pub mod canonical;
pub mod config;
pub mod deliveries;
pub mod edits;
pub mod entries;
mod json_text;
pub mod laws;
pub mod limits;
pub mod lists;
pub mod names;
pub mod numbers;
pub mod open_fault;
pub mod records;
pub mod refusals;
pub mod rows;
pub mod sequence;
mod settings_text;
pub mod sound;
pub mod tap;
pub mod words;
