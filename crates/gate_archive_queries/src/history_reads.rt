//! The read of a queue's reports from a place on: each line is written while its report is read.
ghost use Rattle.std.specs.Prelude.{◌≡◌, ◌++◌, false, List, min, max};
ghost use Rattle.sqlite.specs.Held.{state};
ghost use Rattle.sqlite.specs.State.{HasCleanDisk};
ghost use Rattle.gate_schema.specs.Rows.{Stored};
ghost use Rattle.gate_types.specs.Tap.{has_failed};
ghost use Rattle.gate_types.specs.declared.records.Report.{Report as Told};
ghost use Rattle.gate_book_trait.specs.Writes.{StopsHistoryWriter};
ghost use Rattle.gate_found_rows.specs.Reads.{IsOnlyRead, Shows};
ghost use Rattle.gate_found_rows.specs.Whole.{IsWhole};
ghost use Rattle.gate_queue_queries.specs.History.{WritesWhole};
ghost use Rattle.gate_queue_queries.specs.Streamed.{OpenedHistory};
ghost use Rattle.gate_archive_queries.specs.HistoryFrom.{HoldsDrawnReports, text_from};

use gate_book_trait::HistoryFault;
use gate_queue_queries::{reports, write_end, write_reports};
use gate_rows::values::{number, text};
use gate_types::limits::MOST_LISTED;
use gate_types::names::Name;
use gate_types::tap::Tap;
use sqlite::{Alter, Connection};
use std::alloc::Global;
use std::io::Write;

/// A place as one that a column holds, from 1 on.
fn first_place(from: u64) -> u64
    ensures { result ≡ max (min from 9223372036854775807) 1 }
{
    from.min(9_223_372_036_854_775_807).max(1)
}

/// Writes the front and the history text of a queue that there is, from place `from` on, at most 1,000 reports, each
/// line while its report is read: one line is held. How many reports there are, and the first that is told, or that
/// there is none, is read before the first byte is written.
///
/// `Unavailable` where the store fails or memory is refused before that, within a transaction too; `Broken` where the
/// store fails, memory is refused or a row isn't in form later; `Write` where the writer fails.
pub fn history_from<S: Alter, W: Write>(
    alloc: Global,
    conn: &mut Connection<S>,
    queue: &Name,
    from: u64,
    front: &[u8],
    w: &mut Tap<W>,
) -> Result<(), HistoryFault>
    requires { has_failed w.old ≡ false }
    ensures found { HasCleanDisk (state S.Store conn.new) → (b : Stored) → Shows (state S.Store conn.old) b →
        IsWhole b → (rs : List Told) → HoldsDrawnReports b queue.now rs →
        WritesWhole W.contents w.old w.new (front.now ++ text_from queue.now from rs) result }
    ensures opened { OpenedHistory (state S.Store conn.old) (state S.Store conn.new) result }
    ensures stops { StopsHistoryWriter w.old w.new result }
    ensures only_reads { IsOnlyRead (state S.Store conn.old) (state S.Store conn.new) }
{
    let count = match reports(conn, queue) {
        Ok(count) => count,
        Err(_) => return Err(HistoryFault::Unavailable),
    };
    if !conn.is_autocommit() {
        return Err(HistoryFault::Unavailable);
    }
    let name = queue.as_str();
    let first = first_place(from);
    write_reports(
        alloc,
        conn,
        "SELECT serial, change, revision, verdict, n FROM report WHERE queue = ?1 AND place >= ?2 ORDER BY place",
        &[text(name), number(first)],
        name,
        first,
        MOST_LISTED,
        front,
        w,
    )?;
    write_end(alloc, count, w)
}
