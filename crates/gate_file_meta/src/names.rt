//! The names of a file's tables, indexes and views.
ghost use Rattle.std.specs.Prelude.{◌≡◌};
ghost use Rattle.std.specs.List.{list_any};
ghost use Rattle.sqlite_catalog.specs.Change.{is_used as has_name};

use sqlite_catalog::layout::is_used;
use sqlite_schema::schema::Schema;

/// Whether a table, an index or a view has one of these names.
pub fn is_any_used(schema: &Schema, names: &[&str]) -> bool
    ensures { result ≡ list_any (λ x. has_name schema.now x.now) names.now }
{
    names.iter().any(|name| is_used(schema, name.as_bytes()))
}
