//! Reads of builds, each by key.
ghost use Rattle.std.specs.Prelude.{◌≡◌, true, List, map, slice_get};
ghost use Rattle.std.specs.List.{AllPass};
ghost use Rattle.sqlite.specs.Held.{state};
ghost use Rattle.gate_types.specs.declared.records.Build.{Build as BuildRow};
ghost use Rattle.gate_book_trait.specs.Reads.{Answers};
ghost use Rattle.gate_schema.specs.Shown.{build_shown};
ghost use Rattle.gate_found_rows.specs.Asked.{stored_build_of, builds_between, stored_live_builds};
ghost use Rattle.gate_found_rows.specs.Reads.{IsOnlyRead, Opened, Tells};
ghost use Rattle.gate_found_rows.specs.Whole.{is_build_row_in_form};

use crate::ahead::ahead_in;
use gate_book_trait::BookFault;
use gate_found_rows::columns::{
    build_in, change_in, flag_in, name_in, number_in, revision_in, serial_in,
};
use gate_found_rows::read::read_rows;
use gate_found_rows::words::outcome_in;
use gate_item_queries::capped;
use gate_rows::values;
use gate_types::names::Name;
use gate_types::numbers::{BuildNo, Serial};
use gate_types::records::Build;
use gate_types::sequence::Sequence;
use sqlite::{Alter, Connection, Row};
use std::alloc::Global;

/// The build of a row; `Damaged` where a column isn't in form.
fn build_from(alloc: Global, row: &Row) -> Result<Build, BookFault>
    ensures { (x : BuildRow) → row.now ≡ build_shown x → is_build_row_in_form x ≡ true → Answers x result }
{
    Ok(Build {
        number: build_in(row, 0)?,
        queue: name_in(row, 1)?,
        serial: serial_in(row, 2)?,
        change: change_in(row, 3)?,
        revision: revision_in(row, 4)?,
        job: name_in(row, 5)?,
        after: number_in(row, 6)?,
        ahead: ahead_in(alloc, row, 7)?,
        outcome: outcome_in(row, 8)?,
        live: flag_in(row, 9)?,
    })
}

/// The build of the first row, if there is one.
fn first_build(alloc: Global, rows: &[Row]) -> Result<Option<Build>, BookFault>
    ensures { (xs : List BuildRow) → rows.now ≡ map build_shown xs → AllPass is_build_row_in_form xs →
        Answers (slice_get xs 0) result }
{
    match rows {
        [] => Ok(None),
        [row, ..] => Ok(Some(build_from(alloc, row)?)),
    }
}

/// The builds of all rows, in their order.
fn all_builds(alloc: Global, rows: &[Row]) -> Result<Sequence<Build>, BookFault>
    ensures { (xs : List BuildRow) → rows.now ≡ map build_shown xs → AllPass is_build_row_in_form xs →
        Answers xs result }
{
    let mut builds = Vec::with_capacity(alloc, rows.len())?;
    for row in rows {
        let build = build_from(alloc, row)?;
        builds.push_reserved(build);
    }
    Ok(Sequence::from_vec(builds))
}

/// The build of a number, or None.
///
/// `NoMemory` where memory is refused, `Store` where the query fails, `Damaged` where a row isn't in form.
pub fn build<S: Alter>(
    conn: &mut Connection<S>,
    number: BuildNo,
) -> Result<Option<Build>, BookFault>
    ensures found { Tells (state S.Store conn.old) (state S.Store conn.new) result (λ b. stored_build_of b number) }
    ensures opened { Opened (state S.Store conn.old) (state S.Store conn.new) result }
    ensures only_reads { IsOnlyRead (state S.Store conn.old) (state S.Store conn.new) }
{
    let rows = read_rows(
        conn,
        "SELECT num, queue, serial, change, revision, job, base, ahead, outcome, live FROM build \
         WHERE num = ?1",
        &[values::build(number)],
    )?;
    first_build(*rows.allocator(), &rows)
}

/// The live builds of a serial, by number.
///
/// `NoMemory` where memory is refused, `Store` where the query fails, `Damaged` where a row isn't in form.
pub fn live_builds<S: Alter>(
    conn: &mut Connection<S>,
    serial: Serial,
) -> Result<Sequence<Build>, BookFault>
    ensures found { Tells (state S.Store conn.old) (state S.Store conn.new) result (λ b. stored_live_builds b serial) }
    ensures opened { Opened (state S.Store conn.old) (state S.Store conn.new) result }
    ensures only_reads { IsOnlyRead (state S.Store conn.old) (state S.Store conn.new) }
{
    let rows = read_rows(
        conn,
        "SELECT num, queue, serial, change, revision, job, base, ahead, outcome, live FROM build \
         WHERE serial = ?1 AND live = 1 ORDER BY num",
        &[values::serial(serial)],
    )?;
    all_builds(*rows.allocator(), &rows)
}

/// The live builds of a queue's items with serials above `above` up to `last`, front to back, each item's by number.
///
/// `NoMemory` where memory is refused, `Store` where the query fails, `Damaged` where a row isn't in form.
pub fn builds_between<S: Alter>(
    conn: &mut Connection<S>,
    queue: &Name,
    above: u64,
    last: Serial,
) -> Result<Sequence<Build>, BookFault>
    ensures found { Tells (state S.Store conn.old) (state S.Store conn.new) result (λ b.
        builds_between b queue.now above last) }
    ensures opened { Opened (state S.Store conn.old) (state S.Store conn.new) result }
    ensures only_reads { IsOnlyRead (state S.Store conn.old) (state S.Store conn.new) }
{
    // Two bounds on `serial` would have the items of every queue sought between them: `+` hides the lower one.
    let rows = read_rows(
        conn,
        "SELECT build.num, build.queue, build.serial, build.change, build.revision, build.job, build.base, \
         build.ahead, build.outcome, build.live FROM item, build \
         WHERE item.queue = ?1 AND +item.serial > ?2 AND item.serial <= ?3 \
         AND build.serial = item.serial AND build.live = 1 ORDER BY item.serial, build.num",
        &[
            values::text(queue.as_str()),
            capped(above),
            values::serial(last),
        ],
    )?;
    all_builds(*rows.allocator(), &rows)
}
