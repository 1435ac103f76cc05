//! The read of the accepted deliveries, a row at a time: each line is written while its row is read.
ghost use Rattle.std.specs.Prelude.{◌≡◌, [], ◌∷◌, ℕ, false, IfOk, IsTrue, List, OnOk};
ghost use Rattle.sqlite.specs.Given.{HasGiven};
ghost use Rattle.sqlite.specs.Held.{state};
ghost use Rattle.sqlite.specs.Order.{Row as Columns};
ghost use Rattle.sqlite.specs.State.{HasCleanDisk, IsUnchanged, Survives};
ghost use Rattle.sqlite.specs.Values.{bound};
ghost use Rattle.gate_schema.specs.Rows.{Stored};
ghost use Rattle.gate_types.specs.Tap.{has_failed};
ghost use Rattle.gate_archive.specs.Feed.{with_id};
ghost use Rattle.gate_archive.specs.Writes.{StopsFeed, WritesFeed};
ghost use Rattle.gate_found_rows.specs.Finds.{OnlyReads, Stays};
ghost use Rattle.gate_found_rows.specs.Reads.{IsOnlyRead, Opened, Shows};
ghost use Rattle.gate_queue_queries.specs.History.{ShowsCommitted};
ghost use Rattle.gate_archive_queries.specs.Deliveries.{IsPlaceOf, OpenedFeed, WritesDeliveries, WritesFeedPart};
ghost use Rattle.gate_archive_queries.specs.Deliveries.{accepted_shown};
ghost use Rattle.gate_queue_queries.specs.Streamed.{ReadsOn, StreamsRows};
ghost use Rattle.gate_archive_queries.specs.declared.delivery_rows.Accepted.{Accepted as Told};

use crate::delivery_rows::{Accepted, FeedPlace, accepted_in, first_place, place_value};
use gate_archive::{FeedFault, feed_line};
use gate_book_trait::BookFault;
use gate_found_rows::fault::book_fault;
use gate_found_rows::read::{check_open, read_rows};
use gate_rows::values::bytes;
use gate_types::records::Id;
use gate_types::tap::Tap;
use sqlite::types::ValueRef;
use sqlite::{Alter, Connection, Rows};
use std::alloc::Global;
use std::io::Write;

/// The delivery of the next row, None behind the last. An error of the store ends the query.
fn next_accepted<S: Alter>(rows: &mut Rows<'_, S>) -> Result<Option<Accepted>, BookFault>
    ensures same_reference { rows.new.conn.ghost_name ≡ rows.old.conn.ghost_name }
    ensures reads { HasCleanDisk (state S.Store rows.new.conn.now) → (sql : List ℕ) → (params : Columns) →
        (given : List Columns) → HasGiven S.Store sql params rows.old.conn.now given →
        IfOk result (ReadsOn S.Store sql params accepted_shown rows.old.conn.now rows.new.conn.now given) }
    ensures same { HasCleanDisk (state S.Store rows.new.conn.now) →
        OnOk result (IsUnchanged (state S.Store rows.old.conn.now) (state S.Store rows.new.conn.now)) }
    ensures stays { HasCleanDisk (state S.Store rows.new.conn.now) → ShowsCommitted (state S.Store rows.old.conn.now) →
        Stays (state S.Store rows.old.conn.now) (state S.Store rows.new.conn.now) }
    ensures crash { Survives (state S.Store rows.old.conn.now) (state S.Store rows.new.conn.now) (λ _. ⊥) }
{
    if let Err(error) = rows.advance() {
        return Err(book_fault(&error));
    }
    match rows.get() {
        Some(row) => Ok(Some(accepted_in(row)?)),
        None => Ok(None),
    }
}

/// Writes a text; `Write` where the writer fails.
fn write_text<W: Write>(text: &[u8], w: &mut Tap<W>) -> Result<(), FeedFault>
    requires { has_failed w.old ≡ false }
    ensures { WritesFeedPart W.contents w.old w.new text.now result }
{
    match w.write_all(text) {
        Ok(()) => Ok(()),
        Err(_) => Err(FeedFault::Write),
    }
}

/// Writes the line of a delivery; `Broken` where memory is refused for it.
fn write_line<W: Write>(alloc: Global, told: &Accepted, w: &mut Tap<W>) -> Result<(), FeedFault>
    requires { has_failed w.old ≡ false }
    ensures { WritesFeedPart W.contents w.old w.new (with_id told.now.id told.now.said (10 ∷ [])) result }
{
    match feed_line(alloc, told.id, told.said.as_str()) {
        Ok(line) => write_text(line.as_bytes(), w),
        Err(_) => Err(FeedFault::Broken),
    }
}

/// Writes the front and at most `most` lines, each while the rows stand at its delivery, and tells how many. The first
/// delivery, or that there is none, is read before the first byte is written.
fn write_lines<S: Alter, W: Write>(
    alloc: Global,
    rows: &mut Rows<'_, S>,
    most: u64,
    front: &[u8],
    w: &mut Tap<W>,
) -> Result<u64, FeedFault>
    requires { has_failed w.old ≡ false }
    ensures same_reference { rows.new.conn.ghost_name ≡ rows.old.conn.ghost_name }
    ensures found { HasCleanDisk (state S.Store rows.new.conn.now) → (sql : List ℕ) → (params : Columns) →
        HasGiven S.Store sql params rows.old.conn.now [] → (told : List Told) →
        StreamsRows sql params (state S.Store rows.old.conn.now) accepted_shown told →
        WritesDeliveries W.contents w.old w.new front.now most told result }
    ensures stops { StopsFeed w.old w.new result }
    ensures stays { HasCleanDisk (state S.Store rows.new.conn.now) → ShowsCommitted (state S.Store rows.old.conn.now) →
        Stays (state S.Store rows.old.conn.now) (state S.Store rows.new.conn.now) }
    ensures crash { Survives (state S.Store rows.old.conn.now) (state S.Store rows.new.conn.now) (λ _. ⊥) }
{
    let mut next = match next_accepted(rows) {
        Ok(next) => next,
        Err(_) => return Err(FeedFault::Unavailable),
    };
    write_text(front, w)?;
    for count in 0..most {
        let Some(told) = next else {
            return Ok(count);
        };
        write_line(alloc, &told, w)?;
        next = match next_accepted(rows) {
            Ok(next) => next,
            Err(_) => return Err(FeedFault::Broken),
        };
    }
    Ok(most)
}

/// Writes the front and at most `most` lines of the deliveries that a query shows, and tells how many.
fn write_queried<S: Alter, W: Write>(
    alloc: Global,
    conn: &mut Connection<S>,
    sql: &str,
    params: &[ValueRef<'_>],
    most: u64,
    front: &[u8],
    w: &mut Tap<W>,
) -> Result<u64, FeedFault>
    requires mode { conn.old.in_transaction ≡ false }
    requires unfailed { has_failed w.old ≡ false }
    ensures found { HasCleanDisk (state S.Store conn.new) → (told : List Told) →
        (IsTrue (state S.Store conn.old).is_open →
        StreamsRows sql.now (bound params.now) (state S.Store conn.old) accepted_shown told) →
        WritesDeliveries W.contents w.old w.new front.now most told result }
    ensures opened { OpenedFeed (state S.Store conn.old) (state S.Store conn.new) result }
    ensures stops { StopsFeed w.old w.new result }
    ensures stays { HasCleanDisk (state S.Store conn.new) → OnlyReads sql.now →
        Stays (state S.Store conn.old) (state S.Store conn.new) }
    ensures crash { HasCleanDisk (state S.Store conn.new) → OnlyReads sql.now →
        Survives (state S.Store conn.old) (state S.Store conn.new) (λ _. ⊥) }
    ensures clean { HasCleanDisk (state S.Store conn.new) → HasCleanDisk (state S.Store conn.old) }
{
    let Ok(()) = check_open(conn) else {
        return Err(FeedFault::Unavailable);
    };
    let _ = conn.is_autocommit();
    let mut rows = match conn.query(sql, params) {
        Ok(rows) => rows,
        Err(_) => return Err(FeedFault::Unavailable),
    };
    write_lines(alloc, &mut rows, most, front, w)
}

/// The place of the delivery of an id, if there is one.
fn place_of<S: Alter>(conn: &mut Connection<S>, id: Id) -> Result<Option<FeedPlace>, BookFault>
    ensures found { HasCleanDisk (state S.Store conn.new) → (b : Stored) → Shows (state S.Store conn.old) b →
        IfOk result (IsPlaceOf ((state S.Store conn.old).now.trees 21) b.kept id) }
    ensures opened { Opened (state S.Store conn.old) (state S.Store conn.new) result }
    ensures only_reads { IsOnlyRead (state S.Store conn.old) (state S.Store conn.new) }
{
    let rows = read_rows(
        conn,
        "SELECT rowid FROM delivery WHERE id = ?1 ORDER BY rowid",
        &[bytes(&id.0)],
    )?;
    first_place(&rows)
}

/// Writes the front and at most `most` lines of the deliveries behind that of an id.
fn write_behind<S: Alter, W: Write>(
    alloc: Global,
    conn: &mut Connection<S>,
    id: Id,
    most: u64,
    front: &[u8],
    w: &mut Tap<W>,
) -> Result<u64, FeedFault>
    requires { has_failed w.old ≡ false }
    ensures found { HasCleanDisk (state S.Store conn.new) → (b : Stored) → Shows (state S.Store conn.old) b →
        WritesFeed b.kept (Some id) most front.now W.contents w.old w.new result }
    ensures opened { OpenedFeed (state S.Store conn.old) (state S.Store conn.new) result }
    ensures stops { StopsFeed w.old w.new result }
    ensures only_reads { IsOnlyRead (state S.Store conn.old) (state S.Store conn.new) }
{
    let place = match place_of(conn, id) {
        Ok(Some(place)) => place,
        Ok(None) => return Err(FeedFault::NoDelivery),
        Err(_) => return Err(FeedFault::Unavailable),
    };
    if !conn.is_autocommit() {
        return Err(FeedFault::Unavailable);
    }
    // By the rowid: what was accepted before is never passed over.
    write_queried(
        alloc,
        conn,
        "SELECT id, said FROM delivery WHERE rowid > ?1 ORDER BY rowid",
        &[place_value(&place)],
        most,
        front,
        w,
    )
}

/// Writes the front and then a line for each accepted delivery, in the order in which they were accepted: from the
/// first on or behind that of an id, at most `most`; and tells how many lines these are. Each is written while it is
/// read, and one is held. The first, or that there is none, is read before the first byte is written.
///
/// `NoDelivery` where none has the id; `Unavailable` where the store fails or memory is refused before that, within a
/// transaction too; `Broken` where the store fails, memory is refused or a row isn't in form later; `Write` where the
/// writer fails.
pub fn deliveries<S: Alter, W: Write>(
    alloc: Global,
    conn: &mut Connection<S>,
    after: Option<Id>,
    most: u64,
    front: &[u8],
    w: &mut Tap<W>,
) -> Result<u64, FeedFault>
    requires { has_failed w.old ≡ false }
    ensures found { HasCleanDisk (state S.Store conn.new) → (b : Stored) → Shows (state S.Store conn.old) b →
        WritesFeed b.kept after most front.now W.contents w.old w.new result }
    ensures opened { OpenedFeed (state S.Store conn.old) (state S.Store conn.new) result }
    ensures stops { StopsFeed w.old w.new result }
    ensures only_reads { IsOnlyRead (state S.Store conn.old) (state S.Store conn.new) }
{
    if let Some(id) = after {
        return write_behind(alloc, conn, id, most, front, w);
    }
    if !conn.is_autocommit() {
        return Err(FeedFault::Unavailable);
    }
    write_queried(
        alloc,
        conn,
        "SELECT id, said FROM delivery ORDER BY rowid",
        &[],
        most,
        front,
        w,
    )
}
