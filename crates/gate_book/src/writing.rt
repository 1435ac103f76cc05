//! The history text of a queue's rows is written, line by line.
ghost use Rattle.std.specs.Prelude.{◌≡◌, ◌++◌, false, IfOk, string_bytes};
ghost use Rattle.gate_types.specs.Tap.{has_failed};
ghost use Rattle.gate_book_trait.specs.Text.{first_line, report_lines, closing_line, rows_text, IsWritten, LeavesTap};
ghost use Rattle.gate_book_trait.specs.Text.{WritesText};

use gate_book_trait::{HistoryFault, history_end, history_head, report_line};
use gate_types::names::NoMemory;
use gate_types::rows::ReportRow;
use gate_types::tap::Tap;
use std::alloc::Global;
use std::io::Write;

/// The first line and those of some reports.
fn beginning(alloc: Global, name: &str, rows: &[ReportRow]) -> Result<String, NoMemory>
    ensures { IfOk result (λ s. string_bytes s ≡ first_line name.now ++ report_lines rows.now) }
{
    let mut text = history_head(alloc, name)?;
    for row in rows {
        let line = report_line(alloc, row.place, &row.report)?;
        text.push_str(line.as_str())?;
    }
    Ok(text)
}

/// Writes the lines of reports.
fn write_lines<W: Write>(
    alloc: Global,
    rows: &[ReportRow],
    w: &mut Tap<W>,
) -> Result<(), HistoryFault>
    requires { has_failed w.old ≡ false }
    ensures text { IsWritten W.contents w.old w.new (report_lines rows.now) result }
    ensures stops { LeavesTap w.new result }
{
    for row in rows {
        let Ok(line) = report_line(alloc, row.place, &row.report) else {
            return Err(HistoryFault::Broken);
        };
        w.write_all(line.as_bytes())?;
    }
    Ok(())
}

/// Writes the last line.
fn write_end<W: Write>(alloc: Global, count: u64, w: &mut Tap<W>) -> Result<(), HistoryFault>
    requires { has_failed w.old ≡ false }
    ensures text { IsWritten W.contents w.old w.new (closing_line count) result }
    ensures stops { LeavesTap w.new result }
{
    let Ok(line) = history_end(alloc, count) else {
        return Err(HistoryFault::Broken);
    };
    w.write_all(line.as_bytes())?;
    Ok(())
}

/// Writes the lines of reports and the last line.
fn write_rest<W: Write>(
    alloc: Global,
    rows: &[ReportRow],
    count: u64,
    w: &mut Tap<W>,
) -> Result<(), HistoryFault>
    requires { has_failed w.old ≡ false }
    ensures text { IsWritten W.contents w.old w.new (report_lines rows.now ++ closing_line count) result }
    ensures stops { LeavesTap w.new result }
{
    write_lines(alloc, rows, w)?;
    write_end(alloc, count, w)
}

/// Writes the front, and then a beginning of the text.
fn write_beginning<W: Write>(front: &[u8], text: &str, w: &mut Tap<W>) -> Result<(), HistoryFault>
    requires { has_failed w.old ≡ false }
    ensures text { IsWritten W.contents w.old w.new (front.now ++ text.now) result }
    ensures stops { LeavesTap w.new result }
{
    w.write_all(front)?;
    w.write_all(text.as_bytes())?;
    Ok(())
}

/// Writes the front and then a text of a queue: the first line, the lines of these reports one after another, and the
/// last line with this number. The first two lines are made before anything is written.
pub(crate) fn write_rows<W: Write>(
    alloc: Global,
    name: &str,
    rows: &[ReportRow],
    count: u64,
    front: &[u8],
    w: &mut Tap<W>,
) -> Result<(), HistoryFault>
    requires { has_failed w.old ≡ false }
    ensures { WritesText W.contents w.old w.new
        (front.now ++ (first_line name.now ++ (report_lines rows.now ++ closing_line count))) result }
{
    let (first, rest) = rows.split_at(rows.len().min(1));
    let Ok(text) = beginning(alloc, name, first) else {
        return Err(HistoryFault::Unavailable);
    };
    write_beginning(front, text.as_str(), w)?;
    write_rest(alloc, rest, count, w)
}

/// Writes the front and then the text of a queue with all its reports.
pub(crate) fn write_history<W: Write>(
    alloc: Global,
    name: &str,
    rows: &[ReportRow],
    front: &[u8],
    w: &mut Tap<W>,
) -> Result<(), HistoryFault>
    requires { has_failed w.old ≡ false }
    ensures { WritesText W.contents w.old w.new (front.now ++ rows_text name.now rows.now) result }
{
    write_rows(alloc, name, rows, rows.len() as u64, front, w)
}
