//! Reads of changes, by number.
ghost use Rattle.std.specs.Prelude.{◌≡◌, ℕ, true, List, map, option_and_then, slice_get};
ghost use Rattle.std.specs.List.{All, AllPass};
ghost use Rattle.sqlite.specs.Held.{state};
ghost use Rattle.gate_types.specs.Forms.{is_change_in_form, is_change_number};
ghost use Rattle.gate_types.specs.declared.records.Change.{Change as ChangeOf};
ghost use Rattle.gate_types.specs.declared.rows.ChangeRow.{ChangeRow};
ghost use Rattle.gate_types.specs.Tables.{needs_in};
ghost use Rattle.gate_book_trait.specs.Reads.{Answers};
ghost use Rattle.gate_found_rows.specs.Asked.{stored_approval_of, stored_change};
ghost use Rattle.gate_found_rows.specs.Reads.{IsOnlyRead, Opened, Tells};
ghost use Rattle.gate_found_rows.specs.Shown.{approval_shown, change_shown, number_shown};

use gate_book_trait::BookFault;
use gate_found_rows::columns::{change_in, number_if_any_in, path_name_in, revision_in};
use gate_found_rows::read::read_rows;
use gate_found_rows::words::stage_in;
use gate_rows::values;
use gate_types::numbers::ChangeNo;
use gate_types::records::Change;
use gate_types::sequence::Sequence;
use sqlite::{Alter, Connection, Row};
use std::alloc::Global;

/// The needs of all rows, in their order.
fn all_needs(alloc: Global, rows: &[Row]) -> Result<Sequence<ChangeNo>, BookFault>
    ensures { (ns : List ℕ) → rows.now ≡ map number_shown ns → AllPass is_change_number ns → Answers ns result }
{
    let mut needs = Vec::with_capacity(alloc, rows.len())?;
    for row in rows {
        let need = change_in(row, 0)?;
        needs.push_reserved(need);
    }
    Ok(Sequence::from_vec(needs))
}

/// The needs of a change, in their order; none where the change isn't known.
fn needs<S: Alter>(
    conn: &mut Connection<S>,
    number: ChangeNo,
) -> Result<Sequence<ChangeNo>, BookFault>
    ensures found { Tells (state S.Store conn.old) (state S.Store conn.new) result (λ b. needs_in b.changes number) }
    ensures opened { Opened (state S.Store conn.old) (state S.Store conn.new) result }
    ensures only_reads { IsOnlyRead (state S.Store conn.old) (state S.Store conn.new) }
{
    let rows = read_rows(
        conn,
        "SELECT needed FROM need WHERE change = ?1 ORDER BY place",
        &[values::change(number)],
    )?;
    all_needs(*rows.allocator(), &rows)
}

/// The change of a number and its needs, by its row; `Damaged` where a column isn't in form.
fn change_from(number: ChangeNo, needs: Sequence<ChangeNo>, row: &Row) -> Result<Change, BookFault>
    ensures { (k : ChangeOf) → row.now ≡ change_shown k → k.number ≡ number → k.needs ≡ needs →
        is_change_in_form k ≡ true → Answers k result }
{
    Ok(Change {
        number,
        project: path_name_in(row, 0)?,
        revision: revision_in(row, 1)?,
        stage: stage_in(row, 2)?,
        needs,
    })
}

/// The change of a number and its needs, by the first row, if there is one.
fn first_change(
    number: ChangeNo,
    needs: Sequence<ChangeNo>,
    rows: &[Row],
) -> Result<Option<Change>, BookFault>
    ensures { (ks : List ChangeOf) → rows.now ≡ map change_shown ks →
        All (λ (k : ChangeOf). (k.number ≡ number) × (k.needs ≡ needs) × (is_change_in_form k ≡ true)) ks →
        Answers (slice_get ks 0) result }
{
    match rows {
        [] => Ok(None),
        [row, ..] => Ok(Some(change_from(number, needs, row)?)),
    }
}

/// What is known of the change of a number, or None.
///
/// `NoMemory` where memory is refused, `Store` where a query fails, `Damaged` where a row isn't in form.
pub fn change<S: Alter>(
    conn: &mut Connection<S>,
    number: ChangeNo,
) -> Result<Option<Change>, BookFault>
    ensures found { Tells (state S.Store conn.old) (state S.Store conn.new) result (λ b. stored_change b number) }
    ensures opened { Opened (state S.Store conn.old) (state S.Store conn.new) result }
    ensures only_reads { IsOnlyRead (state S.Store conn.old) (state S.Store conn.new) }
{
    let needs = needs(conn, number)?;
    let rows = read_rows(
        conn,
        "SELECT project, revision, state FROM change WHERE num = ?1",
        &[values::change(number)],
    )?;
    first_change(number, needs, &rows)
}

/// The number of an approval in the first row, if there is one; `Damaged` where it holds neither a number nor NULL.
fn first_approval(rows: &[Row]) -> Result<Option<u64>, BookFault>
    ensures { (rs : List ChangeRow) → rows.now ≡ map approval_shown rs →
        Answers (option_and_then (λ r. r.approval) (slice_get rs 0)) result }
{
    match rows {
        [] => Ok(None),
        [row, ..] => number_if_any_in(row, 0),
    }
}

/// The number of a change's approval, while it is ready.
///
/// `NoMemory` where memory is refused, `Store` where the query fails, `Damaged` where the row isn't in form.
pub fn approval<S: Alter>(
    conn: &mut Connection<S>,
    number: ChangeNo,
) -> Result<Option<u64>, BookFault>
    ensures found { Tells (state S.Store conn.old) (state S.Store conn.new) result (λ b. stored_approval_of b number) }
    ensures opened { Opened (state S.Store conn.old) (state S.Store conn.new) result }
    ensures only_reads { IsOnlyRead (state S.Store conn.old) (state S.Store conn.new) }
{
    let rows = read_rows(
        conn,
        "SELECT approval FROM change WHERE num = ?1",
        &[values::change(number)],
    )?;
    first_approval(&rows)
}
