//! The tables of the gate's file: what each statement's text means to SQL, and what it makes of what the tables hold.
//! Most stands in `specs` and `proofs`, for the crates above.
//!
//! ```text
//! the_texts_make_the_schema();
//! // for contracts above: `Stands s.now.trees b` (`specs/Rows.antt`) says that the tables of `s` hold the rows `b`,
//! // and `after_edit edit b` (`specs/Edits.antt`) what an edit makes of these
//! ```
#![tactic(auto)]

pub mod laws;
