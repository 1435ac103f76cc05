//! Reads of kept deliveries, by id.
ghost use Rattle.std.specs.Prelude.{◌≡◌, true, List, map, slice_get};
ghost use Rattle.std.specs.List.{All};
ghost use Rattle.sqlite.specs.Held.{state};
ghost use Rattle.gate_types.specs.Forms.{is_kept_in_form};
ghost use Rattle.gate_types.specs.Once.{kept_for};
ghost use Rattle.gate_types.specs.declared.records.Kept.{Kept as KeptRow};
ghost use Rattle.gate_book_trait.specs.Reads.{Answers};
ghost use Rattle.gate_found_rows.specs.Reads.{IsOnlyRead, Opened, Tells};
ghost use Rattle.gate_found_rows.specs.Shown.{kept_shown};

use gate_book_trait::BookFault;
use gate_found_rows::columns::text_in;
use gate_found_rows::read::read_rows;
use gate_rows::values;
use gate_types::names::Text;
use gate_types::records::{Id, Kept};
use sqlite::{Alter, Connection, Row};

/// What is kept under an id, by its row; `Damaged` where a column isn't in form.
fn kept_from(id: Id, row: &Row) -> Result<Kept, BookFault>
    ensures { (k : KeptRow) → row.now ≡ kept_shown k → k.id ≡ id → is_kept_in_form k ≡ true → Answers k result }
{
    Ok(Kept {
        id,
        said: Text::new(text_in(row, 0)?),
        reply: Text::new(text_in(row, 1)?),
    })
}

/// What is kept under an id, by the first row, if there is one.
fn first_kept(id: Id, rows: &[Row]) -> Result<Option<Kept>, BookFault>
    ensures { (ks : List KeptRow) → rows.now ≡ map kept_shown ks →
        All (λ (k : KeptRow). (k.id ≡ id) × (is_kept_in_form k ≡ true)) ks → Answers (slice_get ks 0) result }
{
    match rows {
        [] => Ok(None),
        [row, ..] => Ok(Some(kept_from(id, row)?)),
    }
}

/// What is kept of the delivery of an id, or None.
///
/// `NoMemory` where memory is refused, `Store` where the query fails, `Damaged` where a row isn't in form.
pub fn delivery<S: Alter>(conn: &mut Connection<S>, id: &Id) -> Result<Option<Kept>, BookFault>
    ensures found { Tells (state S.Store conn.old) (state S.Store conn.new) result (λ b. kept_for id.now b.kept) }
    ensures opened { Opened (state S.Store conn.old) (state S.Store conn.new) result }
    ensures only_reads { IsOnlyRead (state S.Store conn.old) (state S.Store conn.new) }
{
    let rows = read_rows(
        conn,
        "SELECT said, reply FROM delivery WHERE id = ?1",
        &[values::bytes(&id.0)],
    )?;
    first_kept(*id, &rows)
}
