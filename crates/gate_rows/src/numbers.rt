//! Edits of windows and counters, within a transaction.
ghost use Rattle.std.specs.Prelude.{◌≡◌};
ghost use Rattle.sqlite.specs.Held.{state};
ghost use Rattle.gate_schema.specs.Edits as edits;
ghost use Rattle.gate_rows.specs.Writes.{Keeps, LeavesNothing, Makes};

use crate::statement::run;
use crate::values::{any_number, number, text, too_large};
use gate_types::edits::Counter;
use gate_types::names::Name;
use sqlite::{Alter, Error, Transaction};

/// The window of a queue.
pub(crate) fn set_window<S: Alter>(
    tx: &mut Transaction<'_, S>,
    queue: &Name,
    window: u32,
) -> Result<(), Error>
    ensures same_reference { tx.new.conn.ghost_name ≡ tx.old.conn.ghost_name }
    ensures changes { Makes (state S.Store tx.old.conn.now) (state S.Store tx.new.conn.now) result
        (edits.set_window queue.now window) }
    ensures kept { Keeps (state S.Store tx.old.conn.now) (state S.Store tx.new.conn.now) }
    ensures crash { LeavesNothing (state S.Store tx.old.conn.now) (state S.Store tx.new.conn.now) }
{
    run(
        tx,
        "UPDATE queue SET win = ?2 WHERE name = ?1",
        &[text(queue.as_str()), number(window as u64)],
    )
}

/// A counter. An Err where no column can hold the number.
pub(crate) fn set_counter<S: Alter>(
    tx: &mut Transaction<'_, S>,
    counter: Counter,
    drawn: u64,
) -> Result<(), Error>
    ensures same_reference { tx.new.conn.ghost_name ≡ tx.old.conn.ghost_name }
    ensures changes { Makes (state S.Store tx.old.conn.now) (state S.Store tx.new.conn.now) result
        (edits.draw counter drawn) }
    ensures kept { Keeps (state S.Store tx.old.conn.now) (state S.Store tx.new.conn.now) }
    ensures crash { LeavesNothing (state S.Store tx.old.conn.now) (state S.Store tx.new.conn.now) }
{
    let Some(drawn) = any_number(drawn) else {
        return Err(too_large());
    };
    run(
        tx,
        "UPDATE counter SET drawn = ?2 WHERE name = ?1",
        &[text(counter.word()), drawn],
    )
}
