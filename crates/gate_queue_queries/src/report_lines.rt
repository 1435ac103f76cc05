//! The lines of reports, written a row at a time: each while its report is read.
ghost use Rattle.std.specs.Prelude.{◌≡◌, ◌≤◌, ◌++◌, ◌+◌, [], ℕ, false, IfOk, IsTrue, List, OnOk};
ghost use Rattle.sqlite.specs.Given.{HasGiven};
ghost use Rattle.sqlite.specs.Held.{state};
ghost use Rattle.sqlite.specs.Order.{Row as Columns};
ghost use Rattle.sqlite.specs.State.{HasCleanDisk, IsUnchanged, Survives};
ghost use Rattle.sqlite.specs.Values.{bound};
ghost use Rattle.gate_types.specs.History.{report_row};
ghost use Rattle.gate_types.specs.Tap.{has_failed};
ghost use Rattle.gate_types.specs.declared.records.Report.{Report as Told};
ghost use Rattle.gate_book_trait.specs.Text.{first_line, closing_line};
ghost use Rattle.gate_book_trait.specs.Writes.{StopsHistoryWriter};
ghost use Rattle.gate_found_rows.specs.Finds.{OnlyReads, Stays};
ghost use Rattle.gate_queue_queries.specs.History.{ShowsCommitted, WritesHistoryPart, report_shown, WritesWhole};
ghost use Rattle.gate_queue_queries.specs.Streamed.{OpenedHistory, ReadsOn, StopsReports, StreamsRows};
ghost use Rattle.gate_queue_queries.specs.Streamed.{WritesReportLines};

use gate_book_trait::{BookFault, HistoryFault, history_end, history_head, report_line};
use gate_found_rows::columns::{change_in, revision_in, serial_in};
use gate_found_rows::fault::book_fault;
use gate_found_rows::read::check_open;
use gate_found_rows::words::verdict_in;
use gate_types::records::Report;
use gate_types::tap::Tap;
use sqlite::types::ValueRef;
use sqlite::{Alter, Connection, Row, Rows};
use std::alloc::Global;
use std::io::Write;

/// The report of a row; `Damaged` where a column isn't in form.
fn report_in(row: &Row) -> Result<Report, BookFault>
    ensures { (r : Told) → row.now ≡ report_shown r → IfOk result (λ found. found ≡ r) }
{
    Ok(Report {
        serial: serial_in(row, 0)?,
        change: change_in(row, 1)?,
        revision: revision_in(row, 2)?,
        verdict: verdict_in(row, 3, 4)?,
    })
}

/// The report of the next row, None behind the last. An error of the store ends the query.
fn next_report<S: Alter>(rows: &mut Rows<'_, S>) -> Result<Option<Report>, BookFault>
    ensures same_reference { rows.new.conn.ghost_name ≡ rows.old.conn.ghost_name }
    ensures reads { HasCleanDisk (state S.Store rows.new.conn.now) → (sql : List ℕ) → (params : Columns) →
        (given : List Columns) → HasGiven S.Store sql params rows.old.conn.now given →
        IfOk result (ReadsOn S.Store sql params report_shown rows.old.conn.now rows.new.conn.now given) }
    ensures same { HasCleanDisk (state S.Store rows.new.conn.now) →
        OnOk result (IsUnchanged (state S.Store rows.old.conn.now) (state S.Store rows.new.conn.now)) }
    ensures stays { HasCleanDisk (state S.Store rows.new.conn.now) → ShowsCommitted (state S.Store rows.old.conn.now) →
        Stays (state S.Store rows.old.conn.now) (state S.Store rows.new.conn.now) }
    ensures crash { Survives (state S.Store rows.old.conn.now) (state S.Store rows.new.conn.now) (λ _. ⊥) }
{
    if let Err(error) = rows.advance() {
        return Err(book_fault(&error));
    }
    match rows.get() {
        Some(row) => Ok(Some(report_in(row)?)),
        None => Ok(None),
    }
}

/// Writes a text; `Write` where the writer fails.
fn write_text<W: Write>(text: &[u8], w: &mut Tap<W>) -> Result<(), HistoryFault>
    requires { has_failed w.old ≡ false }
    ensures { WritesHistoryPart W.contents w.old w.new text.now result }
{
    match w.write_all(text) {
        Ok(()) => Ok(()),
        Err(_) => Err(HistoryFault::Write),
    }
}

/// Writes the front and the first line: no byte of them where memory is refused for the line.
fn write_head<W: Write>(
    alloc: Global,
    queue: &str,
    front: &[u8],
    w: &mut Tap<W>,
) -> Result<(), HistoryFault>
    requires { has_failed w.old ≡ false }
    ensures taken { WritesWhole W.contents w.old w.new (front.now ++ first_line queue.now) result }
    ensures stops { StopsHistoryWriter w.old w.new result }
{
    let head = match history_head(alloc, queue) {
        Ok(head) => head,
        Err(_) => return Err(HistoryFault::Unavailable),
    };
    write_text(front, w)?;
    write_text(head.as_bytes(), w)
}

/// Writes the line of the report at a place; `Broken` where memory is refused for it.
fn write_report<W: Write>(
    alloc: Global,
    place: u64,
    report: &Report,
    w: &mut Tap<W>,
) -> Result<(), HistoryFault>
    requires { has_failed w.old ≡ false }
    ensures { WritesHistoryPart W.contents w.old w.new (report_row (place, report.now)) result }
{
    match report_line(alloc, place, report) {
        Ok(line) => write_text(line.as_bytes(), w),
        Err(_) => Err(HistoryFault::Broken),
    }
}

/// Writes the front, the first line, and the lines of at most `most` reports, each while the rows stand at its report,
/// and tells how many these are. The first stands at place `first`; that, or that there is none, is read before the
/// first byte is written.
fn write_lines<S: Alter, W: Write>(
    alloc: Global,
    rows: &mut Rows<'_, S>,
    queue: &str,
    first: u64,
    most: u64,
    front: &[u8],
    w: &mut Tap<W>,
) -> Result<u64, HistoryFault>
    requires small { first + most ≤ 18446744073709551615 }
    requires unfailed { has_failed w.old ≡ false }
    ensures same_reference { rows.new.conn.ghost_name ≡ rows.old.conn.ghost_name }
    ensures found { HasCleanDisk (state S.Store rows.new.conn.now) → (sql : List ℕ) → (params : Columns) →
        HasGiven S.Store sql params rows.old.conn.now [] → (rs : List Told) →
        StreamsRows sql params (state S.Store rows.old.conn.now) report_shown rs →
        WritesReportLines W.contents w.old w.new (front.now ++ first_line queue.now) first most rs result }
    ensures stops { StopsReports w.old w.new result }
    ensures stays { HasCleanDisk (state S.Store rows.new.conn.now) → ShowsCommitted (state S.Store rows.old.conn.now) →
        Stays (state S.Store rows.old.conn.now) (state S.Store rows.new.conn.now) }
    ensures crash { Survives (state S.Store rows.old.conn.now) (state S.Store rows.new.conn.now) (λ _. ⊥) }
{
    let mut next = match next_report(rows) {
        Ok(next) => next,
        Err(_) => return Err(HistoryFault::Unavailable),
    };
    write_head(alloc, queue, front, w)?;
    for step in 0..most {
        let Some(report) = next else {
            return Ok(step);
        };
        write_report(alloc, first + step, &report, w)?;
        next = match next_report(rows) {
            Ok(next) => next,
            Err(_) => return Err(HistoryFault::Broken),
        };
    }
    Ok(most)
}

/// Writes the front, the first line of a queue's history, and the lines of at most `most` of the reports that a query
/// shows, the first of them at place `first`, and tells how many these are. The first, or that there is none, is read
/// before the first byte is written.
pub fn write_reports<S: Alter, W: Write>(
    alloc: Global,
    conn: &mut Connection<S>,
    sql: &str,
    params: &[ValueRef<'_>],
    queue: &str,
    first: u64,
    most: u64,
    front: &[u8],
    w: &mut Tap<W>,
) -> Result<u64, HistoryFault>
    requires small { first + most ≤ 18446744073709551615 }
    requires mode { conn.old.in_transaction ≡ false }
    requires unfailed { has_failed w.old ≡ false }
    ensures found { HasCleanDisk (state S.Store conn.new) → (rs : List Told) →
        (IsTrue (state S.Store conn.old).is_open →
        StreamsRows sql.now (bound params.now) (state S.Store conn.old) report_shown rs) →
        WritesReportLines W.contents w.old w.new (front.now ++ first_line queue.now) first most rs result }
    ensures opened { OpenedHistory (state S.Store conn.old) (state S.Store conn.new) result }
    ensures stops { StopsReports w.old w.new result }
    ensures stays { HasCleanDisk (state S.Store conn.new) → OnlyReads sql.now →
        Stays (state S.Store conn.old) (state S.Store conn.new) }
    ensures crash { HasCleanDisk (state S.Store conn.new) → OnlyReads sql.now →
        Survives (state S.Store conn.old) (state S.Store conn.new) (λ _. ⊥) }
    ensures clean { HasCleanDisk (state S.Store conn.new) → HasCleanDisk (state S.Store conn.old) }
{
    let Ok(()) = check_open(conn) else {
        return Err(HistoryFault::Unavailable);
    };
    let _ = conn.is_autocommit();
    let mut rows = match conn.query(sql, params) {
        Ok(rows) => rows,
        Err(_) => return Err(HistoryFault::Unavailable),
    };
    write_lines(alloc, &mut rows, queue, first, most, front, w)
}

/// Writes the last line, with so many reports; `Broken` where memory is refused for it.
pub fn write_end<W: Write>(alloc: Global, count: u64, w: &mut Tap<W>) -> Result<(), HistoryFault>
    requires { has_failed w.old ≡ false }
    ensures { WritesHistoryPart W.contents w.old w.new (closing_line count) result }
{
    match history_end(alloc, count) {
        Ok(line) => write_text(line.as_bytes(), w),
        Err(_) => Err(HistoryFault::Broken),
    }
}
