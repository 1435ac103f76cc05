//! What is ahead of a build, read from the text of its column.
ghost use Rattle.std.specs.Prelude.{◌≡◌, [], IfOk, IfErr, IsTrue};
ghost use Rattle.std.specs.List.{AllPass};
ghost use Rattle.std.specs.Option.{option_to_list};
ghost use Rattle.sqlite_value.specs.Order.{column};
ghost use Rattle.sqlite.specs.declared.types.Value.TheVariants.{Text};
ghost use Rattle.gate_types.specs.Forms.{is_entry_in_form};
ghost use Rattle.gate_schema.specs.AheadText.{ahead_text};
ghost use Rattle.gate_build_queries.specs.Ahead.{digit_of, ended, go, with_digit, step_byte, step_in_change};
ghost use Rattle.gate_build_queries.specs.Ahead.{step_in_revision};

use gate_book_trait::BookFault;
use gate_rows::write_ahead;
use gate_types::numbers::{ChangeNo, Revision};
use gate_types::records::Entry;
use gate_types::sequence::Sequence;
use sqlite::Row;
use sqlite::types::ValueRef;
use std::alloc::{AllocError, Global};

/// How far the text has been read.
#[derive(Clone, Copy, PartialEq, Eq)]
pub(crate) enum Progress {
    Start,
    /// Behind the outer bracket.
    Outer,
    /// Behind the bracket of an entry.
    Opened,
    /// Within the number of a change.
    InChange(u64),
    /// Behind the comma of an entry.
    Between(ChangeNo),
    /// Within a revision.
    InRevision(ChangeNo, u64),
    /// Behind an entry.
    Closed(Entry),
    /// Behind the comma between two entries.
    Next,
    End,
    /// It isn't a text of entries.
    Bad,
}

fn digit(byte: u8) -> Option<u8>
    ensures { result ≡ digit_of byte }
{
    if byte.is_ascii_digit() {
        Some(byte - b'0')
    } else {
        None
    }
}

/// The number with a digit more. None where it began with 0, or grows past 999,999,999.
fn grow(number: u64, digit: u8) -> Option<u64>
    ensures { result ≡ with_digit number digit }
{
    if number == 0 || number > 99_999_999 {
        None
    } else {
        Some(number * 10 + u64::from(digit))
    }
}

/// The byte within the number of a change.
fn next_in_change(number: u64, byte: u8) -> Progress
    ensures { result ≡ step_in_change number byte }
{
    if byte == b',' {
        return match ChangeNo::new(number) {
            Some(change) => Progress::Between(change),
            None => Progress::Bad,
        };
    }
    let Some(digit) = digit(byte) else {
        return Progress::Bad;
    };
    match grow(number, digit) {
        Some(number) => Progress::InChange(number),
        None => Progress::Bad,
    }
}

/// The byte within a revision.
fn next_in_revision(change: ChangeNo, number: u64, byte: u8) -> Progress
    ensures { result ≡ step_in_revision change number byte }
{
    if byte == b']' {
        return match Revision::new(number) {
            Some(revision) => Progress::Closed(Entry { change, revision }),
            None => Progress::Bad,
        };
    }
    let Some(digit) = digit(byte) else {
        return Progress::Bad;
    };
    match grow(number, digit) {
        Some(number) => Progress::InRevision(change, number),
        None => Progress::Bad,
    }
}

/// The progress behind a byte.
fn next_progress(progress: Progress, byte: u8) -> Progress
    ensures { result ≡ step_byte progress byte }
{
    match progress {
        Progress::Start if byte == b'[' => Progress::Outer,
        Progress::Outer | Progress::Next if byte == b'[' => Progress::Opened,
        Progress::Outer | Progress::Closed(_) if byte == b']' => Progress::End,
        Progress::Closed(_) if byte == b',' => Progress::Next,
        Progress::Opened => match digit(byte) {
            Some(digit) => Progress::InChange(u64::from(digit)),
            None => Progress::Bad,
        },
        Progress::InChange(number) => next_in_change(number, byte),
        Progress::Between(change) => match digit(byte) {
            Some(digit) => Progress::InRevision(change, u64::from(digit)),
            None => Progress::Bad,
        },
        Progress::InRevision(change, number) => next_in_revision(change, number, byte),
        _ => Progress::Bad,
    }
}

/// The entry that has just ended.
fn ended_entry(progress: &Progress) -> Option<Entry>
    ensures { option_to_list result ≡ ended progress.now }
{
    match progress {
        Progress::Closed(entry) => Some(*entry),
        _ => None,
    }
}

/// The entries that end within the text, and the progress behind all of it.
fn read_entries(alloc: Global, text: &[u8]) -> Result<(Progress, Vec<Entry>), AllocError>
    ensures { IfOk result (λ read. (read.0, read.1.items) ≡ go Progress.Start [] text.now) }
{
    let mut progress = Progress::Start;
    let mut entries = Vec::new(alloc);
    for byte in text {
        let next = next_progress(progress, *byte);
        if let Some(entry) = ended_entry(&next) {
            entries.push(entry)?;
        }
        progress = next;
    }
    Ok((progress, entries))
}

fn is_end(progress: Progress) -> bool
    ensures { progress ≡ Progress.End → IsTrue result }
{
    progress == Progress::End
}

/// The entries of a text. `NoMemory` where memory is refused, `Damaged` where the text is of no entries: it
/// has the one form that is written.
fn read_ahead(alloc: Global, text: &[u8]) -> Result<Vec<Entry>, BookFault>
    ensures told { (entries : _) → text.now ≡ ahead_text entries → AllPass is_entry_in_form entries →
        IfOk result (λ read. read.items ≡ entries) }
    ensures form { IfOk result (λ read. text.now ≡ ahead_text read.items) }
    ensures damaged { (entries : _) → text.now ≡ ahead_text entries → AllPass is_entry_in_form entries →
        IfErr result (λ fault. fault ≡ BookFault.NoMemory) }
{
    let (progress, entries) = read_entries(alloc, text)?;
    if !is_end(progress) {
        return Err(BookFault::Damaged);
    }
    let again = write_ahead(alloc, entries.as_slice())?;
    if again.as_bytes() != text {
        return Err(BookFault::Damaged);
    }
    Ok(entries)
}

/// The entries in a column. `NoMemory` where memory is refused, `Damaged` where it holds none.
pub(crate) fn ahead_in(alloc: Global, row: &Row, at: usize) -> Result<Sequence<Entry>, BookFault>
    ensures ok { (entries : _) → column row.now at ≡ Text (ahead_text entries) → AllPass is_entry_in_form entries →
        IfOk result (λ read. read ≡ entries) }
    ensures form { IfOk result (λ read. column row.now at ≡ Text (ahead_text read)) }
    ensures err { (entries : _) → column row.now at ≡ Text (ahead_text entries) → AllPass is_entry_in_form entries →
        IfErr result (λ fault. fault ≡ BookFault.NoMemory) }
{
    match row.get_ref(at) {
        Ok(ValueRef::Text(text)) => Ok(Sequence::from_vec(read_ahead(alloc, text)?)),
        _ => Err(BookFault::Damaged),
    }
}
