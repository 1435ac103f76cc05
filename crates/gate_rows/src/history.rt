//! Edits that add to what happened: landings, reports and kept deliveries, within a transaction.
ghost use Rattle.std.specs.Prelude.{◌≡◌};
ghost use Rattle.sqlite.specs.Held.{state};
ghost use Rattle.gate_types.specs.declared.edits.Edit.TheVariants as edit;
ghost use Rattle.gate_schema.specs.Edits as edits;
ghost use Rattle.gate_rows.specs.Matches.{FitsBeside};
ghost use Rattle.gate_rows.specs.Writes.{Found, Keeps, LeavesNothing, Makes};

use crate::statement::run;
use crate::values::{any_number, bytes, change, landing_place, revision, serial, text, too_large};
use gate_types::names::Name;
use gate_types::records::{Kept, Landing, Report};
use sqlite::{Alter, Error, Transaction};

/// The landing at a place of its queue. An Err where one is there, or where no column can hold the place.
pub(crate) fn put_landing<S: Alter>(
    tx: &mut Transaction<'_, S>,
    queue: &Name,
    place: u64,
    l: &Landing,
) -> Result<(), Error>
    ensures same_reference { tx.new.conn.ghost_name ≡ tx.old.conn.ghost_name }
    ensures changes { Makes (state S.Store tx.old.conn.now) (state S.Store tx.new.conn.now) result
        (edits.add_landing (edits.landing_in queue.now place l.now)) }
    ensures fits { Found (state S.Store tx.old.conn.now) (state S.Store tx.new.conn.now) result
        (FitsBeside (edit.PutLanding queue.now place l.now)) }
    ensures kept { Keeps (state S.Store tx.old.conn.now) (state S.Store tx.new.conn.now) }
    ensures crash { LeavesNothing (state S.Store tx.old.conn.now) (state S.Store tx.new.conn.now) }
{
    let Some(at) = any_number(place) else {
        return Err(too_large());
    };
    run(
        tx,
        "INSERT INTO landing (queue, n, serial, change, revision) VALUES (?1, ?2, ?3, ?4, ?5)",
        &[
            text(queue.as_str()),
            at,
            serial(l.serial),
            change(l.change),
            revision(l.revision),
        ],
    )
}

/// The report at a place of its queue. An Err where one is there, or where no column can hold the place, or
/// that of the landing.
pub(crate) fn put_report<S: Alter>(
    tx: &mut Transaction<'_, S>,
    queue: &Name,
    place: u64,
    r: &Report,
) -> Result<(), Error>
    ensures same_reference { tx.new.conn.ghost_name ≡ tx.old.conn.ghost_name }
    ensures changes { Makes (state S.Store tx.old.conn.now) (state S.Store tx.new.conn.now) result
        (edits.add_report (edits.report_in queue.now place r.now)) }
    ensures fits { Found (state S.Store tx.old.conn.now) (state S.Store tx.new.conn.now) result
        (FitsBeside (edit.PutReport queue.now place r.now)) }
    ensures kept { Keeps (state S.Store tx.old.conn.now) (state S.Store tx.new.conn.now) }
    ensures crash { LeavesNothing (state S.Store tx.old.conn.now) (state S.Store tx.new.conn.now) }
{
    let Some(at) = any_number(place) else {
        return Err(too_large());
    };
    let Some(landed) = landing_place(r.verdict) else {
        return Err(too_large());
    };
    run(
        tx,
        "INSERT INTO report (queue, place, serial, change, revision, verdict, n) VALUES (?1, ?2, ?3, ?4, ?5, ?6, ?7)",
        &[
            text(queue.as_str()),
            at,
            serial(r.serial),
            change(r.change),
            revision(r.revision),
            text(r.verdict.word()),
            landed,
        ],
    )
}

/// An accepted delivery, where none is kept under its id.
pub(crate) fn keep<S: Alter>(tx: &mut Transaction<'_, S>, kept: &Kept) -> Result<(), Error>
    ensures same_reference { tx.new.conn.ghost_name ≡ tx.old.conn.ghost_name }
    ensures changes { Makes (state S.Store tx.old.conn.now) (state S.Store tx.new.conn.now) result
        (edits.add_kept kept.now) }
    ensures kept { Keeps (state S.Store tx.old.conn.now) (state S.Store tx.new.conn.now) }
    ensures crash { LeavesNothing (state S.Store tx.old.conn.now) (state S.Store tx.new.conn.now) }
{
    run(
        tx,
        "INSERT INTO delivery (id, said, reply) VALUES (?1, ?2, ?3)",
        &[
            bytes(&kept.id.0),
            text(kept.said.as_str()),
            text(kept.reply.as_str()),
        ],
    )
}
