//! Edits of builds, within a transaction.
ghost use Rattle.std.specs.Prelude.{◌≡◌};
ghost use Rattle.sqlite.specs.Held.{state};
ghost use Rattle.gate_schema.specs.AheadText.{ahead_text};
ghost use Rattle.gate_schema.specs.Edits as edits;
ghost use Rattle.gate_rows.specs.Writes.{Keeps, LeavesNothing, Makes};

use crate::ahead::write_ahead;
use crate::statement::run;
use crate::values::{any_number, build, change, flag, revision, serial, text, too_large};
use gate_types::numbers::BuildNo;
use gate_types::records::{Build, Outcome};
use sqlite::{Alter, Error, ErrorCode, Transaction};
use std::alloc::Global;

/// Adds a build, with the text of what is ahead of it. An Err where a build has its number, or no column can hold the
/// number of landings that it runs on.
fn add_build<S: Alter>(tx: &mut Transaction<'_, S>, b: &Build, ahead: &str) -> Result<(), Error>
    requires told { ahead.now ≡ ahead_text b.now.ahead }
    ensures same_reference { tx.new.conn.ghost_name ≡ tx.old.conn.ghost_name }
    ensures changes { Makes (state S.Store tx.old.conn.now) (state S.Store tx.new.conn.now) result
        (λ c. edits.add_build b.now (edits.drop_build b.now.number c)) }
    ensures kept { Keeps (state S.Store tx.old.conn.now) (state S.Store tx.new.conn.now) }
    ensures crash { LeavesNothing (state S.Store tx.old.conn.now) (state S.Store tx.new.conn.now) }
{
    let Some(after) = any_number(b.after) else {
        return Err(too_large());
    };
    run(
        tx,
        "INSERT INTO build (num, queue, serial, change, revision, job, base, ahead, outcome, live) VALUES (?1, ?2, ?3, ?4, ?5, ?6, ?7, ?8, ?9, ?10)",
        &[
            build(b.number),
            text(b.queue.as_str()),
            serial(b.serial),
            change(b.change),
            revision(b.revision),
            text(b.job.as_str()),
            after,
            text(ahead),
            text(b.outcome.word()),
            flag(b.live),
        ],
    )
}

/// A build, where none has its number. An Err where one has, where memory is refused, or where no column can hold the
/// number of landings that it runs on.
pub(crate) fn put_build<S: Alter>(
    alloc: Global,
    tx: &mut Transaction<'_, S>,
    b: &Build,
) -> Result<(), Error>
    ensures same_reference { tx.new.conn.ghost_name ≡ tx.old.conn.ghost_name }
    ensures changes { Makes (state S.Store tx.old.conn.now) (state S.Store tx.new.conn.now) result
        (λ c. edits.add_build b.now (edits.drop_build b.now.number c)) }
    ensures kept { Keeps (state S.Store tx.old.conn.now) (state S.Store tx.new.conn.now) }
    ensures crash { LeavesNothing (state S.Store tx.old.conn.now) (state S.Store tx.new.conn.now) }
{
    let Ok(ahead) = write_ahead(alloc, b.ahead.as_slice()) else {
        return Err(Error::SqliteFailure(ErrorCode::OutOfMemory));
    };
    add_build(tx, b, ahead.as_str())
}

/// The outcome of a build.
pub(crate) fn set_outcome<S: Alter>(
    tx: &mut Transaction<'_, S>,
    n: BuildNo,
    outcome: Outcome,
) -> Result<(), Error>
    ensures same_reference { tx.new.conn.ghost_name ≡ tx.old.conn.ghost_name }
    ensures changes { Makes (state S.Store tx.old.conn.now) (state S.Store tx.new.conn.now) result
        (edits.set_outcome n outcome) }
    ensures kept { Keeps (state S.Store tx.old.conn.now) (state S.Store tx.new.conn.now) }
    ensures crash { LeavesNothing (state S.Store tx.old.conn.now) (state S.Store tx.new.conn.now) }
{
    run(
        tx,
        "UPDATE build SET outcome = ?2 WHERE num = ?1",
        &[build(n), text(outcome.word())],
    )
}

/// The build stops being live.
pub(crate) fn stop_build<S: Alter>(tx: &mut Transaction<'_, S>, n: BuildNo) -> Result<(), Error>
    ensures same_reference { tx.new.conn.ghost_name ≡ tx.old.conn.ghost_name }
    ensures changes { Makes (state S.Store tx.old.conn.now) (state S.Store tx.new.conn.now) result
        (edits.stop_build n) }
    ensures kept { Keeps (state S.Store tx.old.conn.now) (state S.Store tx.new.conn.now) }
    ensures crash { LeavesNothing (state S.Store tx.old.conn.now) (state S.Store tx.new.conn.now) }
{
    run(tx, "UPDATE build SET live = 0 WHERE num = ?1", &[build(n)])
}
