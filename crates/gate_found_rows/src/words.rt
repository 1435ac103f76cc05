//! The words in columns, read.
ghost use Rattle.std.specs.Prelude.{◌≡◌, ◌<◌, length, IfOk, OnErr};
ghost use Rattle.sqlite_value.specs.Order.{column};
ghost use Rattle.sqlite.specs.declared.types.Value.TheVariants.{Text};
ghost use Rattle.gate_schema.specs.Rows.{number_or_null};
ghost use Rattle.gate_types.specs.Words.{stage_word};
ghost use Rattle.gate_types.specs.History.{verdict_word, landing_place};
ghost use Rattle.gate_types.specs.BuildText.{outcome_word};

use crate::columns::number_if_any_in;
use gate_book_trait::BookFault;
use gate_types::records::{Outcome, Stage, Verdict};
use sqlite::Row;
use sqlite::types::ValueRef;

/// The stage in a column. `Damaged` where it holds none.
pub fn stage_in(row: &Row, at: usize) -> Result<Stage, BookFault>
    ensures ok { (stage : _) → column row.now at ≡ Text (stage_word stage) → IfOk result (λ found. found ≡ stage) }
    ensures form { IfOk result (λ found. column row.now at ≡ Text (stage_word found)) }
    ensures err { (stage : _) → column row.now at ≡ Text (stage_word stage) → OnErr result ⊥ }
{
    match row.get_ref(at) {
        Ok(ValueRef::Text(word)) => Stage::of_word(word).ok_or(BookFault::Damaged),
        _ => Err(BookFault::Damaged),
    }
}

/// The outcome in a column. `Damaged` where it holds none.
pub fn outcome_in(row: &Row, at: usize) -> Result<Outcome, BookFault>
    ensures ok { (outcome : _) → column row.now at ≡ Text (outcome_word outcome) →
        IfOk result (λ found. found ≡ outcome) }
    ensures form { IfOk result (λ found. column row.now at ≡ Text (outcome_word found)) }
    ensures err { (outcome : _) → column row.now at ≡ Text (outcome_word outcome) → OnErr result ⊥ }
{
    match row.get_ref(at) {
        Ok(ValueRef::Text(word)) => Outcome::of_word(word).ok_or(BookFault::Damaged),
        _ => Err(BookFault::Damaged),
    }
}

/// The verdict in a column, its landing's place in the next. `Damaged` where they hold none.
pub fn verdict_in(row: &Row, at: usize, place_at: usize) -> Result<Verdict, BookFault>
    ensures ok { (verdict : _) → column row.now at ≡ Text (verdict_word verdict) →
        column row.now place_at ≡ number_or_null (landing_place verdict) → place_at < length row.now →
        IfOk result (λ found. found ≡ verdict) }
    ensures err { (verdict : _) → column row.now at ≡ Text (verdict_word verdict) →
        column row.now place_at ≡ number_or_null (landing_place verdict) → place_at < length row.now →
        OnErr result ⊥ }
{
    let place = number_if_any_in(row, place_at)?;
    match row.get_ref(at) {
        Ok(ValueRef::Text(word)) => Verdict::of_word(word, place).ok_or(BookFault::Damaged),
        _ => Err(BookFault::Damaged),
    }
}
