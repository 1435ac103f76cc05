//! Pieces of JSON texts.
ghost use Rattle.std.specs.Prelude.{◌≡◌, IfOk, string_bytes};
ghost use Rattle.json.specs.Print.{quoted};

use crate::names::NoMemory;
use serde_json::Value;
use std::alloc::Global;

/// A text in JSON's quotes.
pub(crate) fn quote(alloc: Global, text: &str) -> Result<String, NoMemory>
    ensures { IfOk result (λ s. string_bytes s ≡ quoted text.now) }
{
    Value::try_from_str(alloc, text)?.to_string(alloc)
}
