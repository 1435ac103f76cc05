//! The reads of all builds of a serial, live or not.
ghost use Rattle.std.specs.Prelude.{◌≡◌, ℕ, true, [], ◌∷◌, List, length, map, reverse};
ghost use Rattle.std.specs.List.{AllPass};
ghost use Rattle.sqlite.specs.Held.{state};
ghost use Rattle.gate_types.specs.declared.records.Build.{Build as BuildRow};
ghost use Rattle.gate_book_trait.specs.Reads.{Answers};
ghost use Rattle.gate_archive.specs.ItemText.{summary_of};
ghost use Rattle.gate_found_rows.specs.Reads.{IsOnlyRead, Opened, Tells};
ghost use Rattle.gate_found_rows.specs.Shown.{number_shown};
ghost use Rattle.gate_found_rows.specs.Whole.{is_build_row_in_form};
ghost use Rattle.gate_archive_queries.specs.Asked.{stored_builds_of, stored_last_builds, summary_shown};

use gate_archive::BuildSummary;
use gate_book_trait::BookFault;
use gate_found_rows::columns::{build_in, flag_in, name_in, number_in};
use gate_found_rows::read::read_rows;
use gate_found_rows::words::outcome_in;
use gate_rows::values::{number, serial};
use gate_types::numbers::Serial;
use gate_types::sequence::Sequence;
use sqlite::{Alter, Connection, Row};
use std::alloc::Global;

/// The number in the one row of a count; `Damaged` where there is none.
fn count_in(rows: &[Row]) -> Result<u64, BookFault>
    ensures { (n : ℕ) → rows.now ≡ number_shown n ∷ [] → Answers n result }
{
    match rows {
        [row] => number_in(row, 0),
        _ => Err(BookFault::Damaged),
    }
}

/// How many builds of a serial there are, live or not.
///
/// `NoMemory` where memory is refused, `Store` where the query fails, `Damaged` where the count is no number.
pub fn build_count<S: Alter>(conn: &mut Connection<S>, of: Serial) -> Result<u64, BookFault>
    ensures found { Tells (state S.Store conn.old) (state S.Store conn.new) result
        (λ b. length (stored_builds_of b of)) }
    ensures opened { Opened (state S.Store conn.old) (state S.Store conn.new) result }
    ensures only_reads { IsOnlyRead (state S.Store conn.old) (state S.Store conn.new) }
{
    let rows = read_rows(
        conn,
        "SELECT count(*) FROM build WHERE serial = ?1",
        &[serial(of)],
    )?;
    count_in(&rows)
}

/// What is told of the build of a row; `Damaged` where a column isn't in form.
fn summary_from(row: &Row) -> Result<BuildSummary, BookFault>
    ensures { (x : BuildRow) → row.now ≡ summary_shown x → is_build_row_in_form x ≡ true →
        Answers (summary_of x) result }
{
    Ok(BuildSummary {
        number: build_in(row, 0)?,
        job: name_in(row, 1)?,
        outcome: outcome_in(row, 2)?,
        live: flag_in(row, 3)?,
    })
}

/// What is told of the builds of all rows, the last row first.
fn summaries_back(alloc: Global, rows: &[Row]) -> Result<Sequence<BuildSummary>, BookFault>
    ensures { (xs : List BuildRow) → rows.now ≡ map summary_shown xs → AllPass is_build_row_in_form xs →
        Answers (reverse (map summary_of xs)) result }
{
    let mut builds = Vec::with_capacity(alloc, rows.len())?;
    for row in rows {
        let build = summary_from(row)?;
        builds.push_reserved(build);
    }
    builds.reverse();
    Ok(Sequence::from_vec(builds))
}

/// The last builds of a serial, live or not, by number, no more than `most`.
///
/// `NoMemory` where memory is refused, `Store` where the query fails, `Damaged` where a row isn't in form.
pub fn last_builds<S: Alter>(
    conn: &mut Connection<S>,
    of: Serial,
    most: u32,
) -> Result<Sequence<BuildSummary>, BookFault>
    ensures found { Tells (state S.Store conn.old) (state S.Store conn.new) result (λ b. stored_last_builds b of most) }
    ensures opened { Opened (state S.Store conn.old) (state S.Store conn.new) result }
    ensures only_reads { IsOnlyRead (state S.Store conn.old) (state S.Store conn.new) }
{
    let rows = read_rows(
        conn,
        "SELECT num, job, outcome, live FROM build WHERE serial = ?1 ORDER BY num DESC LIMIT ?2",
        &[serial(of), number(u64::from(most))],
    )?;
    summaries_back(*rows.allocator(), &rows)
}
