//! The read of all reports of a queue: its history is written while it is read.
ghost use Rattle.std.specs.Prelude.{◌≡◌, false};
ghost use Rattle.sqlite.specs.Held.{state};
ghost use Rattle.sqlite.specs.State.{HasCleanDisk};
ghost use Rattle.gate_types.specs.Tap.{has_failed};
ghost use Rattle.gate_book_trait.specs.Writes.{StopsHistoryWriter};
ghost use Rattle.gate_queue_queries.specs.History.{WritesReports};
ghost use Rattle.gate_found_rows.specs.Reads.{IsOnlyRead};

use crate::report_lines::{write_end, write_reports};
use gate_book_trait::HistoryFault;
use gate_rows::values::text;
use gate_types::tap::Tap;
use sqlite::{Alter, Connection};
use std::alloc::Global;
use std::io::Write;

// More than any queue has: each has a serial of its own, up to 10^15.
const MOST_REPORTS: u64 = 1_000_000_000_000_001;

/// Writes the front and the history text of a queue that there is, each line while its report is read: one line is
/// held. The first report, or that there is none, is read before the first byte is written.
///
/// `Unavailable` where the store fails or memory is refused before that, within a transaction too; `Broken` where the
/// store fails, memory is refused or a row isn't in form later; `Write` where the writer fails.
pub fn history<S: Alter, W: Write>(
    alloc: Global,
    conn: &mut Connection<S>,
    queue: &str,
    front: &[u8],
    w: &mut Tap<W>,
) -> Result<(), HistoryFault>
    requires { has_failed w.old ≡ false }
    ensures found { HasCleanDisk (state S.Store conn.new) →
        WritesReports (state S.Store conn.old) queue.now front.now W.contents w.old w.new result }
    ensures stops { StopsHistoryWriter w.old w.new result }
    ensures only_reads { IsOnlyRead (state S.Store conn.old) (state S.Store conn.new) }
{
    if !conn.is_autocommit() {
        return Err(HistoryFault::Unavailable);
    }
    let count = write_reports(
        alloc,
        conn,
        "SELECT serial, change, revision, verdict, n FROM report WHERE queue = ?1 ORDER BY place",
        &[text(queue)],
        queue,
        1,
        MOST_REPORTS,
        front,
        w,
    )?;
    if MOST_REPORTS <= count {
        return Err(HistoryFault::Broken);
    }
    write_end(alloc, count, w)
}
