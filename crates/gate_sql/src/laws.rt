//! What is true of the gate's files: each function proves one law, by its contract, and does nothing when it runs.
ghost use Rattle.std.specs.Prelude.{◌≡◌, []};
ghost use Rattle.sqlite_catalog.specs.Listing.{Lists};
ghost use Rattle.gate_schema.specs.Schema.{schema_with};
ghost use Rattle.gate_file_meta.specs.Reading.{HasNoMeta};

pub use gate_table_laws::laws::{every_read_is_told, the_rows_are_whole};

/// A file that lists no object has no table, index or view.
pub fn a_file_that_lists_nothing_is_empty()
    ensures schema { (s : _) → Lists [] s → s ≡ schema_with 0 0 }
{}

/// An empty file has no `meta` to read.
pub fn an_empty_file_has_no_meta()
    ensures meta { HasNoMeta (schema_with 0 0) }
{}
