//! The rows that a query of the tables finds, outside a transaction, and the values in their columns. `specs` say what
//! each read of a book asks of the tables, and when their rows are in form.
//!
//! ```text
//! let rows = read_rows(&mut conn, "SELECT num FROM build WHERE serial = ?1", &[serial(number)])?;
//! let build = build_in(&rows[0], 0)?;
//! ```
#![tactic(auto)]

pub mod columns;
pub mod fault;
pub mod read;
pub mod words;
