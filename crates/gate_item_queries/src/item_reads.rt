//! Reads of items, each by key.
ghost use Rattle.std.specs.Prelude.{◌≡◌, ◌<◌, pos, min, IfOk, IfSome};
ghost use Rattle.sqlite.specs.Held.{state};
ghost use Rattle.sqlite.specs.Value.{owned};
ghost use Rattle.sqlite.specs.declared.types.Value.TheVariants.{Int};
ghost use Rattle.gate_book_trait.specs.Reads.{first_above, first_items_above, last_item_below};
ghost use Rattle.gate_rows.specs.Matches.{items_of};
ghost use Rattle.gate_found_rows.specs.Asked.{stored_item_at, stored_items_needing, stored_queued_of};
ghost use Rattle.gate_found_rows.specs.Reads.{IsOnlyRead, Opened, Tells};

use crate::item_rows::{all_items, first_above, first_below, first_item, first_queued};
use gate_book_trait::{BookFault, QueuedItem};
use gate_found_rows::read::read_rows;
use gate_rows::values::{change, number, serial, text};
use gate_types::names::Name;
use gate_types::numbers::{ChangeNo, Serial};
use gate_types::records::Item;
use gate_types::sequence::Sequence;
use sqlite::types::ValueRef;
use sqlite::{Alter, Connection};

/// A number as a parameter; the greatest that a column holds in place of one above it.
pub fn capped<'a>(n: u64) -> ValueRef<'a>
    ensures { owned result ≡ Int (pos (min n 9223372036854775807)) }
{
    number(n.min(9_223_372_036_854_775_807))
}

/// The items of a queue, front to back.
///
/// `NoMemory` where memory is refused, `Store` where the query fails, `Damaged` where a row isn't in form.
pub fn items<S: Alter>(conn: &mut Connection<S>, queue: &Name) -> Result<Sequence<Item>, BookFault>
    ensures found { Tells (state S.Store conn.old) (state S.Store conn.new) result (λ b. items_of queue.now b.items) }
    ensures opened { Opened (state S.Store conn.old) (state S.Store conn.new) result }
    ensures only_reads { IsOnlyRead (state S.Store conn.old) (state S.Store conn.new) }
{
    let rows = read_rows(
        conn,
        "SELECT serial, queue, change, revision, ahead, failing FROM item WHERE queue = ?1 ORDER BY serial",
        &[text(queue.as_str())],
    )?;
    all_items(*rows.allocator(), &rows)
}

/// The item of a serial, or None.
///
/// `NoMemory` where memory is refused, `Store` where the query fails, `Damaged` where a row isn't in form.
pub fn item<S: Alter>(conn: &mut Connection<S>, number: Serial) -> Result<Option<Item>, BookFault>
    ensures found { Tells (state S.Store conn.old) (state S.Store conn.new) result (λ b. stored_item_at b number) }
    ensures opened { Opened (state S.Store conn.old) (state S.Store conn.new) result }
    ensures only_reads { IsOnlyRead (state S.Store conn.old) (state S.Store conn.new) }
{
    let rows = read_rows(
        conn,
        "SELECT serial, queue, change, revision, ahead, failing FROM item WHERE serial = ?1",
        &[serial(number)],
    )?;
    first_item(&rows)
}

/// The item of a change, and its queue's name, or None.
///
/// `NoMemory` where memory is refused, `Store` where the query fails, `Damaged` where a row isn't in form.
pub fn queued<S: Alter>(
    conn: &mut Connection<S>,
    number: ChangeNo,
) -> Result<Option<QueuedItem>, BookFault>
    ensures found { Tells (state S.Store conn.old) (state S.Store conn.new) result (λ b. stored_queued_of b number) }
    ensures opened { Opened (state S.Store conn.old) (state S.Store conn.new) result }
    ensures only_reads { IsOnlyRead (state S.Store conn.old) (state S.Store conn.new) }
{
    let rows = read_rows(
        conn,
        "SELECT serial, queue, change, revision, ahead, failing FROM item WHERE change = ?1",
        &[change(number)],
    )?;
    first_queued(&rows)
}

/// The first item of a queue with a higher serial than `above`, or None.
///
/// `NoMemory` where memory is refused, `Store` where the query fails, `Damaged` where a row isn't in form or its
/// serial isn't higher.
pub fn next_item<S: Alter>(
    conn: &mut Connection<S>,
    queue: &Name,
    above: u64,
) -> Result<Option<Item>, BookFault>
    ensures found { Tells (state S.Store conn.old) (state S.Store conn.new) result (λ b.
        first_above above (items_of queue.now b.items)) }
    ensures rises { IfOk result (λ found. IfSome found (λ i. above < i.serial)) }
    ensures opened { Opened (state S.Store conn.old) (state S.Store conn.new) result }
    ensures only_reads { IsOnlyRead (state S.Store conn.old) (state S.Store conn.new) }
{
    let rows = read_rows(
        conn,
        "SELECT serial, queue, change, revision, ahead, failing FROM item \
         WHERE queue = ?1 AND serial > ?2 ORDER BY serial LIMIT 1",
        &[text(queue.as_str()), capped(above)],
    )?;
    first_above(&rows, above)
}

/// The last item of a queue with a lower serial than `below`, or None.
///
/// `NoMemory` where memory is refused, `Store` where the query fails, `Damaged` where a row isn't in form or its
/// serial isn't lower.
pub fn last_item<S: Alter>(
    conn: &mut Connection<S>,
    queue: &Name,
    below: u64,
) -> Result<Option<Item>, BookFault>
    ensures found { Tells (state S.Store conn.old) (state S.Store conn.new) result (λ b.
        last_item_below below (items_of queue.now b.items)) }
    ensures falls { IfOk result (λ found. IfSome found (λ i. i.serial < below)) }
    ensures opened { Opened (state S.Store conn.old) (state S.Store conn.new) result }
    ensures only_reads { IsOnlyRead (state S.Store conn.old) (state S.Store conn.new) }
{
    let rows = read_rows(
        conn,
        "SELECT serial, queue, change, revision, ahead, failing FROM item \
         WHERE queue = ?1 AND serial < ?2 ORDER BY serial DESC LIMIT 1",
        &[text(queue.as_str()), capped(below)],
    )?;
    first_below(&rows, below)
}

/// The first items of a queue with higher serials than `above`, front to back, no more than `most`.
///
/// `NoMemory` where memory is refused, `Store` where the query fails, `Damaged` where a row isn't in form.
pub fn next_items<S: Alter>(
    conn: &mut Connection<S>,
    queue: &Name,
    above: u64,
    most: u32,
) -> Result<Sequence<Item>, BookFault>
    ensures found { Tells (state S.Store conn.old) (state S.Store conn.new) result (λ b.
        first_items_above above most (items_of queue.now b.items)) }
    ensures opened { Opened (state S.Store conn.old) (state S.Store conn.new) result }
    ensures only_reads { IsOnlyRead (state S.Store conn.old) (state S.Store conn.new) }
{
    let rows = read_rows(
        conn,
        "SELECT serial, queue, change, revision, ahead, failing FROM item \
         WHERE queue = ?1 AND serial > ?2 ORDER BY serial LIMIT ?3",
        &[text(queue.as_str()), capped(above), number(u64::from(most))],
    )?;
    all_items(*rows.allocator(), &rows)
}

/// The items of a queue with higher serials than `above` whose changes need this one, front to back.
///
/// `NoMemory` where memory is refused, `Store` where the query fails, `Damaged` where a row isn't in form.
pub fn needing<S: Alter>(
    conn: &mut Connection<S>,
    queue: &Name,
    needed: ChangeNo,
    above: u64,
) -> Result<Sequence<Item>, BookFault>
    ensures found { Tells (state S.Store conn.old) (state S.Store conn.new) result (λ b.
        stored_items_needing b queue.now needed above) }
    ensures opened { Opened (state S.Store conn.old) (state S.Store conn.new) result }
    ensures only_reads { IsOnlyRead (state S.Store conn.old) (state S.Store conn.new) }
{
    // A change may name another twice. `+` hides the queue, so that items are sought by their changes.
    let rows = read_rows(
        conn,
        "SELECT DISTINCT item.serial, item.queue, item.change, item.revision, item.ahead, item.failing \
         FROM need, item WHERE need.needed = ?3 AND item.change = need.change \
         AND +item.queue = ?1 AND item.serial > ?2 ORDER BY item.serial",
        &[text(queue.as_str()), capped(above), change(needed)],
    )?;
    all_items(*rows.allocator(), &rows)
}
