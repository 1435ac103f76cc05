//! Edits of items, within a transaction.
ghost use Rattle.std.specs.Prelude.{◌≡◌, ◌==◌, false};
ghost use Rattle.std.specs.List.{AllByRecursion};
ghost use Rattle.sqlite.specs.Held.{state};
ghost use Rattle.gate_types.specs.declared.edits.Edit.TheVariants as edit;
ghost use Rattle.gate_schema.specs.Edits as edits;
ghost use Rattle.gate_schema.specs.Rows.{ItemRow};
ghost use Rattle.gate_rows.specs.Matches.{FitsBeside};
ghost use Rattle.gate_rows.specs.Writes.{Found, FoundIf, Keeps, LeavesNothing, Makes, MakesAs};

use crate::statement::run;
use crate::values::{change, flag, revision, serial, serial_if_any, text};
use gate_types::names::Name;
use gate_types::numbers::Serial;
use gate_types::records::Item;
use sqlite::{Alter, Error, Transaction};

/// Takes the item of a serial out.
pub(crate) fn drop_item<S: Alter>(tx: &mut Transaction<'_, S>, number: Serial) -> Result<(), Error>
    ensures same_reference { tx.new.conn.ghost_name ≡ tx.old.conn.ghost_name }
    ensures changes { Makes (state S.Store tx.old.conn.now) (state S.Store tx.new.conn.now) result
        (edits.drop_item number) }
    ensures kept { Keeps (state S.Store tx.old.conn.now) (state S.Store tx.new.conn.now) }
    ensures crash { LeavesNothing (state S.Store tx.old.conn.now) (state S.Store tx.new.conn.now) }
{
    run(tx, "DELETE FROM item WHERE serial = ?1", &[serial(number)])
}

/// Sets an item in place of the one of its serial in its queue. Tells whether there is one.
fn set_item<S: Alter>(tx: &mut Transaction<'_, S>, queue: &Name, item: &Item) -> Result<bool, Error>
    ensures same_reference { tx.new.conn.ghost_name ≡ tx.old.conn.ghost_name }
    ensures changes { MakesAs (state S.Store tx.old.conn.now) (state S.Store tx.new.conn.now) result
        (λ found. edits.set_item found (edits.item_in queue.now item.now)) }
    ensures fits { FoundIf (state S.Store tx.old.conn.now) (state S.Store tx.new.conn.now) result
        (FitsBeside (edit.PutItem queue.now item.now)) }
    ensures kept { Keeps (state S.Store tx.old.conn.now) (state S.Store tx.new.conn.now) }
    ensures crash { LeavesNothing (state S.Store tx.old.conn.now) (state S.Store tx.new.conn.now) }
{
    let rows = tx.execute(
        "UPDATE item SET change = ?3, revision = ?4, ahead = ?5, failing = ?6 WHERE serial = ?1 AND queue = ?2",
        &[
            serial(item.serial),
            text(queue.as_str()),
            change(item.change),
            revision(item.revision),
            serial_if_any(item.ahead),
            flag(item.failing),
        ],
    )?;
    Ok(rows > 0)
}

/// Adds an item. An Err where an item has its serial.
fn add_item<S: Alter>(tx: &mut Transaction<'_, S>, queue: &Name, item: &Item) -> Result<(), Error>
    ensures same_reference { tx.new.conn.ghost_name ≡ tx.old.conn.ghost_name }
    ensures changes { Makes (state S.Store tx.old.conn.now) (state S.Store tx.new.conn.now) result
        (edits.add_item (edits.item_in queue.now item.now)) }
    ensures fresh { Found (state S.Store tx.old.conn.now) (state S.Store tx.new.conn.now) result
        (λ b. AllByRecursion (λ (y : ItemRow). (y.item.serial == item.now.serial) ≡ false) b.items) }
    ensures kept { Keeps (state S.Store tx.old.conn.now) (state S.Store tx.new.conn.now) }
    ensures crash { LeavesNothing (state S.Store tx.old.conn.now) (state S.Store tx.new.conn.now) }
{
    run(
        tx,
        "INSERT INTO item (serial, queue, change, revision, ahead, failing) VALUES (?1, ?2, ?3, ?4, ?5, ?6)",
        &[
            serial(item.serial),
            text(queue.as_str()),
            change(item.change),
            revision(item.revision),
            serial_if_any(item.ahead),
            flag(item.failing),
        ],
    )
}

/// The item of a serial, put in its queue. An Err where another queue has that serial.
pub(crate) fn put_item<S: Alter>(
    tx: &mut Transaction<'_, S>,
    queue: &Name,
    item: &Item,
) -> Result<(), Error>
    ensures same_reference { tx.new.conn.ghost_name ≡ tx.old.conn.ghost_name }
    ensures changes { Makes (state S.Store tx.old.conn.now) (state S.Store tx.new.conn.now) result
        (λ b. edits.add_item (edits.item_in queue.now item.now) (edits.drop_item_of item.now.serial queue.now b)) }
    ensures fits { Found (state S.Store tx.old.conn.now) (state S.Store tx.new.conn.now) result
        (FitsBeside (edit.PutItem queue.now item.now)) }
    ensures kept { Keeps (state S.Store tx.old.conn.now) (state S.Store tx.new.conn.now) }
    ensures crash { LeavesNothing (state S.Store tx.old.conn.now) (state S.Store tx.new.conn.now) }
{
    if set_item(tx, queue, item)? {
        return Ok(());
    }
    add_item(tx, queue, item)
}
