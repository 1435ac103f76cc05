//! The read of the report of an item that left, by its serial.
ghost use Rattle.std.specs.Prelude.{◌≡◌, true, List, map, slice_get};
ghost use Rattle.std.specs.List.{AllPass};
ghost use Rattle.sqlite.specs.Held.{state};
ghost use Rattle.gate_book_trait.specs.Reads.{Answers};
ghost use Rattle.gate_schema.specs.Rows.{QueueReport};
ghost use Rattle.gate_found_rows.specs.Reads.{IsOnlyRead, Opened};
ghost use Rattle.gate_archive_queries.specs.Asked.{TellsIfInForm, is_left_in_form, stored_left_at, left_row};
ghost use Rattle.gate_archive_queries.specs.Asked.{left_shown};

use gate_archive::LeftItem;
use gate_book_trait::BookFault;
use gate_found_rows::columns::{change_in, name_in, revision_in, serial_in};
use gate_found_rows::read::read_rows;
use gate_found_rows::words::verdict_in;
use gate_rows::values;
use gate_types::numbers::Serial;
use gate_types::records::Report;
use sqlite::{Alter, Connection, Row};

/// The report of a row, with its queue's name; `Damaged` where a column isn't in form.
fn left_from(row: &Row) -> Result<LeftItem, BookFault>
    ensures { (l : QueueReport) → row.now ≡ left_shown l → is_left_in_form l ≡ true → Answers (left_row l) result }
{
    Ok(LeftItem {
        queue: name_in(row, 0)?,
        report: Report {
            serial: serial_in(row, 1)?,
            change: change_in(row, 2)?,
            revision: revision_in(row, 3)?,
            verdict: verdict_in(row, 4, 5)?,
        },
    })
}

/// The report of the first row, if there is one.
fn first_left(rows: &[Row]) -> Result<Option<LeftItem>, BookFault>
    ensures { (ls : List QueueReport) → rows.now ≡ map left_shown ls → AllPass is_left_in_form ls →
        Answers (slice_get (map left_row ls) 0) result }
{
    match rows {
        [] => Ok(None),
        [row, ..] => Ok(Some(left_from(row)?)),
    }
}

/// The report of the item of a serial that left, with its queue's name, or None.
///
/// `NoMemory` where memory is refused, `Store` where the query fails, `Damaged` where a row isn't in form.
pub fn left<S: Alter>(
    conn: &mut Connection<S>,
    serial: Serial,
) -> Result<Option<LeftItem>, BookFault>
    ensures found { TellsIfInForm (state S.Store conn.old) (state S.Store conn.new) result
        (λ b. stored_left_at b serial) }
    ensures opened { Opened (state S.Store conn.old) (state S.Store conn.new) result }
    ensures only_reads { IsOnlyRead (state S.Store conn.old) (state S.Store conn.new) }
{
    let rows = read_rows(
        conn,
        "SELECT queue, serial, change, revision, verdict, n FROM report WHERE serial = ?1 ORDER BY rowid",
        &[values::serial(serial)],
    )?;
    first_left(&rows)
}
