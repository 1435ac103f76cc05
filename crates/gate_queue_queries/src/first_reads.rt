//! Reads of a file of schema 1.
ghost use Rattle.std.specs.Prelude.{◌≡◌, IfOk, List, map};
ghost use Rattle.sqlite.specs.Held.{state};
ghost use Rattle.sqlite.specs.State.{HasCleanDisk};
ghost use Rattle.gate_types.specs.declared.records.Item.{Item};
ghost use Rattle.gate_types.specs.declared.records.Landing.{Landing};
ghost use Rattle.gate_rows.specs.Matches.{items_of};
ghost use Rattle.gate_schema.specs.Rows.{Stored};
ghost use Rattle.gate_queue_queries.specs.First.{HoldsLandings, ShowsFirstIfOpen, IsProjectOf, pair_shown};
ghost use Rattle.gate_found_rows.specs.Reads.{IsOnlyRead};

use gate_book_trait::BookFault;
use gate_found_rows::columns::path_name_in;
use gate_found_rows::read::read_rows;
use gate_rows::values;
use gate_types::names::{Name, PathName};
use gate_types::numbers::ChangeNo;
use sqlite::{Alter, Connection, Row};

/// The serials of the items of a queue, front to back, each with its change.
pub fn item_pairs<S: Alter>(conn: &mut Connection<S>, queue: &Name) -> Result<Vec<Row>, BookFault>
    ensures found { HasCleanDisk (state S.Store conn.new) → (b : Stored) → ShowsFirstIfOpen (state S.Store conn.old) b →
        IfOk result (λ rows. rows.items
        ≡ map (λ (i : Item). pair_shown i.serial i.change) (items_of queue.now b.items)) }
    ensures only_reads { IsOnlyRead (state S.Store conn.old) (state S.Store conn.new) }
{
    read_rows(
        conn,
        "SELECT serial, change FROM item WHERE queue = ?1 ORDER BY serial",
        &[values::text(queue.as_str())],
    )
}

/// The serials of the landings of a queue, in their order, each with its change.
pub fn landing_pairs<S: Alter>(
    conn: &mut Connection<S>,
    queue: &Name,
) -> Result<Vec<Row>, BookFault>
    ensures found { HasCleanDisk (state S.Store conn.new) → (b : Stored) → ShowsFirstIfOpen (state S.Store conn.old) b →
        (ls : List Landing) → HoldsLandings b queue.now ls →
        IfOk result (λ rows. rows.items ≡ map (λ (l : Landing). pair_shown l.serial l.change) ls) }
    ensures only_reads { IsOnlyRead (state S.Store conn.old) (state S.Store conn.new) }
{
    read_rows(
        conn,
        "SELECT serial, change FROM landing WHERE queue = ?1 ORDER BY n",
        &[values::text(queue.as_str())],
    )
}

/// The project of a change; `Damaged` where the change isn't known.
pub fn project_name<S: Alter>(
    conn: &mut Connection<S>,
    number: ChangeNo,
) -> Result<PathName, BookFault>
    ensures found { HasCleanDisk (state S.Store conn.new) → (b : Stored) → ShowsFirstIfOpen (state S.Store conn.old) b →
        IfOk result (IsProjectOf b.changes number) }
    ensures only_reads { IsOnlyRead (state S.Store conn.old) (state S.Store conn.new) }
{
    let rows = read_rows(
        conn,
        "SELECT project FROM change WHERE num = ?1",
        &[values::change(number)],
    )?;
    match rows.as_slice() {
        [row] => path_name_in(row, 0),
        _ => Err(BookFault::Damaged),
    }
}
