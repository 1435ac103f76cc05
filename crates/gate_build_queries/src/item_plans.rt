//! The read of the plans of a queue's items, in a range of serials.
ghost use Rattle.std.specs.Prelude.{◌≡◌, ◌++◌, ◌∷◌, [], true, List, ℕ, map, OnOk};
ghost use Rattle.std.specs.List.{AllPass};
ghost use Rattle.sqlite.specs.Held.{state};
ghost use Rattle.gate_book_trait.specs.Reads.{Answers};
ghost use Rattle.gate_schema.specs.Rows.{JobRow};
ghost use Rattle.gate_found_rows.specs.Asked.{plans_between};
ghost use Rattle.gate_build_queries.specs.Planned.{plans_joined, jobs_between, marked_between, plans_of, with_job};
ghost use Rattle.gate_found_rows.specs.Reads.{IsOnlyRead, Opened, Tells};
ghost use Rattle.gate_found_rows.specs.Shown.{number_shown, planned_shown};
ghost use Rattle.gate_found_rows.specs.Whole.{is_planned_in_form};

use gate_book_trait::BookFault;
use gate_found_rows::columns::{flag_in, name_in, number_in, serial_in};
use gate_found_rows::read::read_rows;
use gate_item_queries::capped;
use gate_rows::values;
use gate_types::config::Job;
use gate_types::names::Name;
use gate_types::numbers::Serial;
use gate_types::records::Plan;
use gate_types::sequence::Sequence;
use sqlite::{Alter, Connection, Row};
use std::alloc::{AllocError, Global};

/// Adds a plan of these jobs and one more.
fn push_plan(
    plans: &mut Vec<Plan>,
    serial: Serial,
    fast: bool,
    mut jobs: Sequence<Job>,
    job: Job,
) -> Result<(), AllocError>
    ensures { OnOk result (plans.new.items ≡ plans.old.items ++
        (record { serial = serial; jobs = jobs ++ job ∷ []; fast = fast }) ∷ []) }
{
    jobs.push(job)?;
    plans.push(Plan { serial, jobs, fast })?;
    Ok(())
}

/// Adds a plan with a job more, or it and a new one where it is under another serial.
fn join_job(
    alloc: Global,
    plans: &mut Vec<Plan>,
    last: Option<Plan>,
    serial: Serial,
    fast: bool,
    job: Job,
) -> Result<(), AllocError>
    ensures { OnOk result (plans.new.items ≡ plans.old.items ++ plans_joined last serial fast job) }
{
    let Some(plan) = last else {
        return push_plan(plans, serial, fast, Sequence::new(alloc), job);
    };
    if plan.serial == serial {
        let Plan { serial, jobs, fast } = plan;
        return push_plan(plans, serial, fast, jobs, job);
    }
    plans.push(plan)?;
    push_plan(plans, serial, fast, Sequence::new(alloc), job)
}

/// Adds a job to the last plan, or to a new one where that is under another serial.
fn add_job(
    alloc: Global,
    plans: &mut Vec<Plan>,
    serial: Serial,
    fast: bool,
    job: Job,
) -> Result<(), AllocError>
    ensures { OnOk result (plans.new.items ≡ with_job plans.old.items serial fast job) }
{
    let last = plans.pop();
    join_job(alloc, plans, last, serial, fast, job)
}

/// The job of a row, behind its serial; `Damaged` where a column isn't in form.
fn job_behind(row: &Row) -> Result<Job, BookFault>
    ensures { (x : JobRow) → row.now ≡ planned_shown x → is_planned_in_form x ≡ true → Answers x.job result }
{
    Ok(Job {
        name: name_in(row, 1)?,
        voting: flag_in(row, 2)?,
    })
}

/// The plans of the jobs of all rows, those of each plan in turn; those of the marked serials fail fast.
fn all_plans(alloc: Global, rows: &[Row], marked: &[u64]) -> Result<Sequence<Plan>, BookFault>
    ensures { (xs : List JobRow) → rows.now ≡ map planned_shown xs → AllPass is_planned_in_form xs →
        Answers (plans_of marked.now xs) result }
{
    let mut plans = Vec::new(alloc);
    for row in rows {
        let serial = serial_in(row, 0)?;
        let job = job_behind(row)?;
        let fast = marked.contains(&serial.get());
        add_job(alloc, &mut plans, serial, fast, job)?;
    }
    Ok(Sequence::from_vec(plans))
}

/// The numbers of all rows, in their order; `Damaged` where a column holds none.
fn all_numbers(alloc: Global, rows: &[Row]) -> Result<Sequence<u64>, BookFault>
    ensures { (ns : List ℕ) → rows.now ≡ map number_shown ns → Answers ns result }
{
    let mut numbers = Vec::with_capacity(alloc, rows.len())?;
    for row in rows {
        let number = number_in(row, 0)?;
        numbers.push_reserved(number);
    }
    Ok(Sequence::from_vec(numbers))
}

/// The serials of a queue's items above `above` up to `last` that fail fast.
fn marked_between<S: Alter>(
    conn: &mut Connection<S>,
    queue: &Name,
    above: u64,
    last: Serial,
) -> Result<Sequence<u64>, BookFault>
    ensures found { Tells (state S.Store conn.old) (state S.Store conn.new) result (λ b.
        marked_between b queue.now above last) }
    ensures opened { Opened (state S.Store conn.old) (state S.Store conn.new) result }
    ensures only_reads { IsOnlyRead (state S.Store conn.old) (state S.Store conn.new) }
{
    let rows = read_rows(
        conn,
        "SELECT item_fast.serial FROM item, item_fast \
         WHERE item.queue = ?1 AND +item.serial > ?2 AND item.serial <= ?3 \
         AND item_fast.serial = item.serial ORDER BY item.serial, item_fast.serial",
        &[
            values::text(queue.as_str()),
            capped(above),
            values::serial(last),
        ],
    )?;
    all_numbers(*rows.allocator(), &rows)
}

/// The plans of the jobs of a queue's items above `above` up to `last`; those of the marked serials fail fast.
fn planned_between<S: Alter>(
    conn: &mut Connection<S>,
    queue: &Name,
    above: u64,
    last: Serial,
    marked: &[u64],
) -> Result<Sequence<Plan>, BookFault>
    ensures found { Tells (state S.Store conn.old) (state S.Store conn.new) result (λ b.
        plans_of marked.now (jobs_between b queue.now above last)) }
    ensures opened { Opened (state S.Store conn.old) (state S.Store conn.new) result }
    ensures only_reads { IsOnlyRead (state S.Store conn.old) (state S.Store conn.new) }
{
    let rows = read_rows(
        conn,
        "SELECT item_job.serial, item_job.name, item_job.voting FROM item, item_job \
         WHERE item.queue = ?1 AND +item.serial > ?2 AND item.serial <= ?3 \
         AND item_job.serial = item.serial ORDER BY item.serial, item_job.place",
        &[
            values::text(queue.as_str()),
            capped(above),
            values::serial(last),
        ],
    )?;
    all_plans(*rows.allocator(), &rows, marked)
}

/// The plans of a queue's items with serials above `above` up to `last`, front to back.
///
/// `NoMemory` where memory is refused, `Store` where a query fails, `Damaged` where a row isn't in form.
pub fn plans_between<S: Alter>(
    conn: &mut Connection<S>,
    queue: &Name,
    above: u64,
    last: Serial,
) -> Result<Sequence<Plan>, BookFault>
    ensures found { Tells (state S.Store conn.old) (state S.Store conn.new) result (λ b.
        plans_between b queue.now above last) }
    ensures opened { Opened (state S.Store conn.old) (state S.Store conn.new) result }
    ensures only_reads { IsOnlyRead (state S.Store conn.old) (state S.Store conn.new) }
{
    let marked = marked_between(conn, queue, above, last)?;
    planned_between(conn, queue, above, last, marked.as_slice())
}
