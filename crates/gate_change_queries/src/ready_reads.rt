//! Reads of the ready list.
ghost use Rattle.std.specs.Prelude.{◌≡◌, true, List, map};
ghost use Rattle.std.specs.List.{AllPass};
ghost use Rattle.sqlite.specs.Held.{state};
ghost use Rattle.gate_types.specs.Forms.{is_ready_in_form};
ghost use Rattle.gate_book_trait.specs.Reads.{Answers};
ghost use Rattle.gate_found_rows.specs.Asked.{AreReadyByApproval, AreReadyNeeding};
ghost use Rattle.gate_found_rows.specs.Reads.{IsOnlyRead, Opened, Reads};
ghost use Rattle.gate_found_rows.specs.Shown.{ready_shown};

use gate_book_trait::BookFault;
use gate_found_rows::columns::{change_in, number_in};
use gate_found_rows::read::read_rows;
use gate_rows::values::change;
use gate_types::numbers::ChangeNo;
use gate_types::records::Ready;
use gate_types::sequence::Sequence;
use sqlite::{Alter, Connection, Row};
use std::alloc::Global;

/// The ready change of a row; `Damaged` where a column isn't in form.
fn ready_in(row: &Row) -> Result<Ready, BookFault>
    ensures { (r : Ready) → row.now ≡ ready_shown r → is_ready_in_form r ≡ true → Answers r result }
{
    Ok(Ready {
        approval: number_in(row, 0)?,
        change: change_in(row, 1)?,
    })
}

/// The ready changes of all rows, in their order.
fn all_ready(alloc: Global, rows: &[Row]) -> Result<Sequence<Ready>, BookFault>
    ensures { (rs : List Ready) → rows.now ≡ map ready_shown rs → AllPass is_ready_in_form rs → Answers rs result }
{
    let mut found = Vec::with_capacity(alloc, rows.len())?;
    for row in rows {
        let ready = ready_in(row)?;
        found.push_reserved(ready);
    }
    Ok(Sequence::from_vec(found))
}

/// The changes that are ready, in order of approval.
///
/// `NoMemory` where memory is refused, `Store` where the query fails, `Damaged` where a row isn't in form.
pub fn ready<S: Alter>(conn: &mut Connection<S>) -> Result<Sequence<Ready>, BookFault>
    ensures found { Reads (state S.Store conn.old) (state S.Store conn.new) result
        (λ b found. AreReadyByApproval b found) }
    ensures opened { Opened (state S.Store conn.old) (state S.Store conn.new) result }
    ensures only_reads { IsOnlyRead (state S.Store conn.old) (state S.Store conn.new) }
{
    // The test finds its rows by the index of the approvals; IS NOT NULL would read all changes.
    let rows = read_rows(
        conn,
        "SELECT approval, num FROM change WHERE approval > 0 ORDER BY approval",
        &[],
    )?;
    all_ready(*rows.allocator(), &rows)
}

/// The changes that are ready and need this one, in order of approval.
///
/// `NoMemory` where memory is refused, `Store` where the query fails, `Damaged` where a row isn't in form.
pub fn ready_needing<S: Alter>(
    conn: &mut Connection<S>,
    needed: ChangeNo,
) -> Result<Sequence<Ready>, BookFault>
    ensures found { Reads (state S.Store conn.old) (state S.Store conn.new) result (λ b found.
        AreReadyNeeding b needed found) }
    ensures opened { Opened (state S.Store conn.old) (state S.Store conn.new) result }
    ensures only_reads { IsOnlyRead (state S.Store conn.old) (state S.Store conn.new) }
{
    // A change may name another twice. Needs are sought by their index, and then changes by their numbers.
    let needing = read_rows(
        conn,
        "SELECT DISTINCT change.approval, change.num FROM need, change \
         WHERE need.needed = ?1 AND change.num = need.change AND change.approval > 0 ORDER BY change.approval",
        &[change(needed)],
    )?;
    all_ready(*needing.allocator(), &needing)
}
