//! Reads of queues, by name: the window, how many items, landings and reports there are.
ghost use Rattle.std.specs.Prelude.{◌≡◌, ℕ, nat_le, List, length, map, slice_get, slice_index};
ghost use Rattle.std.specs.List.{AllPass};
ghost use Rattle.sqlite.specs.Held.{state};
ghost use Rattle.gate_book_trait.specs.Reads.{Answers};
ghost use Rattle.gate_rows.specs.Matches.{items_of};
ghost use Rattle.gate_found_rows.specs.Asked.{landing_before, last_landing, last_report, stored_window_of};
ghost use Rattle.gate_found_rows.specs.Reads.{IsOnlyRead, Opened, Tells};
ghost use Rattle.gate_found_rows.specs.Shown.{number_shown};
ghost use Rattle.gate_types.specs.Limits.{most_window};

use gate_book_trait::BookFault;
use gate_found_rows::columns::number_in;
use gate_found_rows::read::read_rows;
use gate_rows::values::{serial, text};
use gate_types::limits::MOST_WINDOW;
use gate_types::names::Name;
use gate_types::numbers::Serial;
use sqlite::{Alter, Connection, Row};

/// The number in the first row, 0 where there is no row; `Damaged` where the column holds none.
fn first_number(rows: &[Row]) -> Result<u64, BookFault>
    ensures { (ns : List ℕ) → rows.now ≡ map number_shown ns → Answers (slice_index ns 0) result }
{
    match rows {
        [] => Ok(0),
        [row, ..] => number_in(row, 0),
    }
}

/// The window in the first row, if there is one; `Damaged` where it is over 1,000.
fn first_window(rows: &[Row]) -> Result<Option<u32>, BookFault>
    ensures { (ns : List ℕ) → rows.now ≡ map number_shown ns → AllPass (λ n. nat_le n most_window) ns →
        Answers (slice_get ns 0) result }
{
    let [row, ..] = rows else {
        return Ok(None);
    };
    match number_in(row, 0)? {
        window if window <= MOST_WINDOW => Ok(Some(window as u32)),
        _ => Err(BookFault::Damaged),
    }
}

/// The window of a queue, if there is such a queue.
///
/// `NoMemory` where memory is refused, `Store` where the query fails, `Damaged` where the window is over 1,000.
pub fn window<S: Alter>(conn: &mut Connection<S>, queue: &Name) -> Result<Option<u32>, BookFault>
    ensures found { Tells (state S.Store conn.old) (state S.Store conn.new) result (λ b. stored_window_of b queue.now) }
    ensures opened { Opened (state S.Store conn.old) (state S.Store conn.new) result }
    ensures only_reads { IsOnlyRead (state S.Store conn.old) (state S.Store conn.new) }
{
    let rows = read_rows(
        conn,
        "SELECT win FROM queue WHERE name = ?1 ORDER BY rowid",
        &[text(queue.as_str())],
    )?;
    first_window(&rows)
}

/// How many items a queue has, 0 where there is no such queue.
///
/// `NoMemory` where memory is refused, `Store` where the query fails, `Damaged` where the count is no number.
pub fn item_count<S: Alter>(conn: &mut Connection<S>, queue: &Name) -> Result<u64, BookFault>
    ensures found { Tells (state S.Store conn.old) (state S.Store conn.new) result (λ b.
        length (items_of queue.now b.items)) }
    ensures opened { Opened (state S.Store conn.old) (state S.Store conn.new) result }
    ensures only_reads { IsOnlyRead (state S.Store conn.old) (state S.Store conn.new) }
{
    let rows = read_rows(
        conn,
        "SELECT count(*) FROM item WHERE queue = ?1",
        &[text(queue.as_str())],
    )?;
    first_number(&rows)
}

/// The place of a queue's last landing, 0 where it has none.
///
/// `NoMemory` where memory is refused, `Store` where the query fails, `Damaged` where the place is no number.
pub fn landing_count<S: Alter>(conn: &mut Connection<S>, queue: &Name) -> Result<u64, BookFault>
    ensures found { Tells (state S.Store conn.old) (state S.Store conn.new) result (λ b. last_landing b queue.now) }
    ensures opened { Opened (state S.Store conn.old) (state S.Store conn.new) result }
    ensures only_reads { IsOnlyRead (state S.Store conn.old) (state S.Store conn.new) }
{
    let rows = read_rows(
        conn,
        "SELECT n FROM landing WHERE queue = ?1 ORDER BY n DESC LIMIT 1",
        &[text(queue.as_str())],
    )?;
    first_number(&rows)
}

/// The place of a queue's last landing with a lower serial, 0 where it has none.
///
/// `NoMemory` where memory is refused, `Store` where the query fails, `Damaged` where the place is no number.
pub fn landing_before<S: Alter>(
    conn: &mut Connection<S>,
    queue: &Name,
    number: Serial,
) -> Result<u64, BookFault>
    ensures found { Tells (state S.Store conn.old) (state S.Store conn.new) result (λ b.
        landing_before b queue.now number) }
    ensures opened { Opened (state S.Store conn.old) (state S.Store conn.new) result }
    ensures only_reads { IsOnlyRead (state S.Store conn.old) (state S.Store conn.new) }
{
    let rows = read_rows(
        conn,
        "SELECT n FROM landing WHERE queue = ?1 AND serial < ?2 ORDER BY n DESC LIMIT 1",
        &[text(queue.as_str()), serial(number)],
    )?;
    first_number(&rows)
}

/// The place of a queue's last report, 0 where it has none.
///
/// `NoMemory` where memory is refused, `Store` where the query fails, `Damaged` where the place is no number.
pub fn reports<S: Alter>(conn: &mut Connection<S>, queue: &Name) -> Result<u64, BookFault>
    ensures found { Tells (state S.Store conn.old) (state S.Store conn.new) result (λ b. last_report b queue.now) }
    ensures opened { Opened (state S.Store conn.old) (state S.Store conn.new) result }
    ensures only_reads { IsOnlyRead (state S.Store conn.old) (state S.Store conn.new) }
{
    let rows = read_rows(
        conn,
        "SELECT place FROM report WHERE queue = ?1 ORDER BY place DESC LIMIT 1",
        &[text(queue.as_str())],
    )?;
    first_number(&rows)
}
