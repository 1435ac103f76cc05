//! Edits of plans, within a transaction.
ghost use Rattle.std.specs.Prelude.{◌≡◌, ◌<◌, ◌^◌, ◌∷◌, [], length};
ghost use Rattle.sqlite.specs.Held.{state};
ghost use Rattle.gate_types.specs.declared.edits.Edit.TheVariants as edit;
ghost use Rattle.gate_schema.specs.Edits as edits;
ghost use Rattle.gate_rows.specs.Matches.{FitsBeside, IsFree};
ghost use Rattle.gate_rows.specs.Writes.{Found, Keeps, LeavesNothing, Makes};

use crate::items::drop_item;
use crate::statement::run;
use crate::values::{flag, number, serial, text};
use gate_types::config::Job;
use gate_types::numbers::Serial;
use gate_types::records::Plan;
use sqlite::{Alter, Constraint, Error, ErrorCode, Transaction};

/// Takes the jobs under a serial out.
fn drop_jobs<S: Alter>(tx: &mut Transaction<'_, S>, n: Serial) -> Result<(), Error>
    ensures same_reference { tx.new.conn.ghost_name ≡ tx.old.conn.ghost_name }
    ensures changes { Makes (state S.Store tx.old.conn.now) (state S.Store tx.new.conn.now) result
        (edits.drop_jobs n) }
    ensures kept { Keeps (state S.Store tx.old.conn.now) (state S.Store tx.new.conn.now) }
    ensures crash { LeavesNothing (state S.Store tx.old.conn.now) (state S.Store tx.new.conn.now) }
{
    run(tx, "DELETE FROM item_job WHERE serial = ?1", &[serial(n)])
}

/// Takes out that the item of a serial fails fast.
fn drop_fast<S: Alter>(tx: &mut Transaction<'_, S>, n: Serial) -> Result<(), Error>
    ensures same_reference { tx.new.conn.ghost_name ≡ tx.old.conn.ghost_name }
    ensures changes { Makes (state S.Store tx.old.conn.now) (state S.Store tx.new.conn.now) result
        (edits.drop_fast n) }
    ensures kept { Keeps (state S.Store tx.old.conn.now) (state S.Store tx.new.conn.now) }
    ensures crash { LeavesNothing (state S.Store tx.old.conn.now) (state S.Store tx.new.conn.now) }
{
    run(tx, "DELETE FROM item_fast WHERE serial = ?1", &[serial(n)])
}

/// Takes the plan under a serial out.
fn drop_plan<S: Alter>(tx: &mut Transaction<'_, S>, n: Serial) -> Result<(), Error>
    ensures same_reference { tx.new.conn.ghost_name ≡ tx.old.conn.ghost_name }
    ensures changes { Makes (state S.Store tx.old.conn.now) (state S.Store tx.new.conn.now) result
        (edits.drop_plan n) }
    ensures kept { Keeps (state S.Store tx.old.conn.now) (state S.Store tx.new.conn.now) }
    ensures crash { LeavesNothing (state S.Store tx.old.conn.now) (state S.Store tx.new.conn.now) }
{
    drop_jobs(tx, n)?;
    drop_fast(tx, n)
}

/// Takes the item of a serial out, and its plan.
pub(crate) fn drop_planned<S: Alter>(tx: &mut Transaction<'_, S>, n: Serial) -> Result<(), Error>
    ensures same_reference { tx.new.conn.ghost_name ≡ tx.old.conn.ghost_name }
    ensures changes { Makes (state S.Store tx.old.conn.now) (state S.Store tx.new.conn.now) result
        (λ b. edits.drop_plan n (edits.drop_item n b)) }
    ensures kept { Keeps (state S.Store tx.old.conn.now) (state S.Store tx.new.conn.now) }
    ensures crash { LeavesNothing (state S.Store tx.old.conn.now) (state S.Store tx.new.conn.now) }
{
    drop_item(tx, n)?;
    drop_plan(tx, n)
}

/// Takes the item of a serial out, and that it fails fast; the jobs of its plan stay.
pub(crate) fn land_item<S: Alter>(tx: &mut Transaction<'_, S>, n: Serial) -> Result<(), Error>
    ensures same_reference { tx.new.conn.ghost_name ≡ tx.old.conn.ghost_name }
    ensures changes { Makes (state S.Store tx.old.conn.now) (state S.Store tx.new.conn.now) result
        (λ b. edits.drop_fast n (edits.drop_item n b)) }
    ensures kept { Keeps (state S.Store tx.old.conn.now) (state S.Store tx.new.conn.now) }
    ensures crash { LeavesNothing (state S.Store tx.old.conn.now) (state S.Store tx.new.conn.now) }
{
    drop_item(tx, n)?;
    drop_fast(tx, n)
}

/// Adds a job at its index. An Err where one is there.
fn add_job<S: Alter>(
    tx: &mut Transaction<'_, S>,
    n: Serial,
    index: usize,
    job: &Job,
) -> Result<(), Error>
    requires { index < 2 ^ 63 }
    ensures same_reference { tx.new.conn.ghost_name ≡ tx.old.conn.ghost_name }
    ensures changes { Makes (state S.Store tx.old.conn.now) (state S.Store tx.new.conn.now) result
        (edits.add_jobs ((record { serial = n; place = index; job = job.now }) ∷ [])) }
    ensures free { Found (state S.Store tx.old.conn.now) (state S.Store tx.new.conn.now) result (IsFree n index) }
    ensures kept { Keeps (state S.Store tx.old.conn.now) (state S.Store tx.new.conn.now) }
    ensures crash { LeavesNothing (state S.Store tx.old.conn.now) (state S.Store tx.new.conn.now) }
{
    run(
        tx,
        "INSERT INTO item_job (serial, place, name, voting) VALUES (?1, ?2, ?3, ?4)",
        &[
            serial(n),
            number(index as u64),
            text(job.name.as_str()),
            flag(job.voting),
        ],
    )
}

/// Adds the jobs of a plan, by their indexes. An Err where one of these is taken.
fn add_jobs<S: Alter>(tx: &mut Transaction<'_, S>, n: Serial, jobs: &[Job]) -> Result<(), Error>
    ensures same_reference { tx.new.conn.ghost_name ≡ tx.old.conn.ghost_name }
    ensures changes { Makes (state S.Store tx.old.conn.now) (state S.Store tx.new.conn.now) result
        (edits.add_jobs (edits.job_rows n 0 jobs.now)) }
    ensures free { Found (state S.Store tx.old.conn.now) (state S.Store tx.new.conn.now) result
        (λ b. 0 < length jobs.now → IsFree n 0 b) }
    ensures kept { Keeps (state S.Store tx.old.conn.now) (state S.Store tx.new.conn.now) }
    ensures crash { LeavesNothing (state S.Store tx.old.conn.now) (state S.Store tx.new.conn.now) }
{
    for (index, job) in jobs.iter().enumerate() {
        add_job(tx, n, index, job)?;
    }
    Ok(())
}

/// Adds that the item of a serial fails fast. An Err where that stands.
fn add_fast<S: Alter>(tx: &mut Transaction<'_, S>, n: Serial) -> Result<(), Error>
    ensures same_reference { tx.new.conn.ghost_name ≡ tx.old.conn.ghost_name }
    ensures changes { Makes (state S.Store tx.old.conn.now) (state S.Store tx.new.conn.now) result
        (edits.add_fast n) }
    ensures kept { Keeps (state S.Store tx.old.conn.now) (state S.Store tx.new.conn.now) }
    ensures crash { LeavesNothing (state S.Store tx.old.conn.now) (state S.Store tx.new.conn.now) }
{
    run(
        tx,
        "INSERT INTO item_fast (serial) VALUES (?1)",
        &[serial(n)],
    )
}

/// The same, where it does.
fn mark_fast<S: Alter>(tx: &mut Transaction<'_, S>, n: Serial, fast: bool) -> Result<(), Error>
    ensures same_reference { tx.new.conn.ghost_name ≡ tx.old.conn.ghost_name }
    ensures changes { Makes (state S.Store tx.old.conn.now) (state S.Store tx.new.conn.now) result
        (edits.mark_fast fast n) }
    ensures kept { Keeps (state S.Store tx.old.conn.now) (state S.Store tx.new.conn.now) }
    ensures crash { LeavesNothing (state S.Store tx.old.conn.now) (state S.Store tx.new.conn.now) }
{
    if fast { add_fast(tx, n) } else { Ok(()) }
}

/// The error for a plan that has no jobs, so that these tables can't tell it from none.
fn lacks_jobs() -> Error {
    Error::SqliteFailure(ErrorCode::ConstraintViolation(Constraint::Check))
}

/// A plan, under a serial that has none. An Err where a job is at the place of one of its own, or the mark that it
/// needs is there; or where it has no jobs.
pub(crate) fn put_plan<S: Alter>(tx: &mut Transaction<'_, S>, plan: &Plan) -> Result<(), Error>
    ensures same_reference { tx.new.conn.ghost_name ≡ tx.old.conn.ghost_name }
    ensures changes { Makes (state S.Store tx.old.conn.now) (state S.Store tx.new.conn.now) result
        (edits.add_plan plan.now) }
    ensures fits { Found (state S.Store tx.old.conn.now) (state S.Store tx.new.conn.now) result
        (FitsBeside (edit.PutPlan plan.now)) }
    ensures kept { Keeps (state S.Store tx.old.conn.now) (state S.Store tx.new.conn.now) }
    ensures crash { LeavesNothing (state S.Store tx.old.conn.now) (state S.Store tx.new.conn.now) }
{
    let jobs = plan.jobs.as_slice();
    if jobs.is_empty() {
        return Err(lacks_jobs());
    }
    add_jobs(tx, plan.serial, jobs)?;
    mark_fast(tx, plan.serial, plan.fast)
}
