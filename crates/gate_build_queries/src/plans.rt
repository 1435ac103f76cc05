//! The read of a plan, by serial.
ghost use Rattle.std.specs.Prelude.{◌≡◌, true, List, map};
ghost use Rattle.std.specs.List.{AllPass};
ghost use Rattle.sqlite.specs.Held.{state};
ghost use Rattle.gate_types.specs.Names.{is_name};
ghost use Rattle.gate_types.specs.declared.config.Job.{Job as JobOf};
ghost use Rattle.gate_book_trait.specs.Reads.{Answers};
ghost use Rattle.gate_found_rows.specs.Asked.{is_stored_fast, stored_jobs_of, stored_plan_at, plan_with};
ghost use Rattle.gate_found_rows.specs.Reads.{IsOnlyRead, Opened, Tells};
ghost use Rattle.gate_found_rows.specs.Shown.{job_shown};

use gate_book_trait::BookFault;
use gate_found_rows::columns::{flag_in, name_in};
use gate_found_rows::read::read_rows;
use gate_rows::values;
use gate_types::config::Job;
use gate_types::numbers::Serial;
use gate_types::records::Plan;
use gate_types::sequence::Sequence;
use sqlite::{Alter, Connection, Row};
use std::alloc::Global;

/// The job of a row; `Damaged` where a column isn't in form.
fn job_from(row: &Row) -> Result<Job, BookFault>
    ensures { (j : JobOf) → row.now ≡ job_shown j → is_name j.name ≡ true → Answers j result }
{
    Ok(Job {
        name: name_in(row, 0)?,
        voting: flag_in(row, 1)?,
    })
}

/// The jobs of all rows, in their order.
fn all_jobs(alloc: Global, rows: &[Row]) -> Result<Sequence<Job>, BookFault>
    ensures { (js : List JobOf) → rows.now ≡ map job_shown js → AllPass (λ j. is_name j.name) js → Answers js result }
{
    let mut jobs = Vec::with_capacity(alloc, rows.len())?;
    for row in rows {
        let job = job_from(row)?;
        jobs.push_reserved(job);
    }
    Ok(Sequence::from_vec(jobs))
}

/// The jobs under a serial, in their order; none where there is no plan.
fn jobs<S: Alter>(conn: &mut Connection<S>, number: Serial) -> Result<Sequence<Job>, BookFault>
    ensures found { Tells (state S.Store conn.old) (state S.Store conn.new) result (λ b. stored_jobs_of b number) }
    ensures opened { Opened (state S.Store conn.old) (state S.Store conn.new) result }
    ensures only_reads { IsOnlyRead (state S.Store conn.old) (state S.Store conn.new) }
{
    let rows = read_rows(
        conn,
        "SELECT name, voting FROM item_job WHERE serial = ?1 ORDER BY place",
        &[values::serial(number)],
    )?;
    all_jobs(*rows.allocator(), &rows)
}

/// Whether the item of a serial fails fast.
fn is_fast<S: Alter>(conn: &mut Connection<S>, number: Serial) -> Result<bool, BookFault>
    ensures found { Tells (state S.Store conn.old) (state S.Store conn.new) result (λ b. is_stored_fast b number) }
    ensures opened { Opened (state S.Store conn.old) (state S.Store conn.new) result }
    ensures only_reads { IsOnlyRead (state S.Store conn.old) (state S.Store conn.new) }
{
    let rows = read_rows(
        conn,
        "SELECT serial FROM item_fast WHERE serial = ?1",
        &[values::serial(number)],
    )?;
    Ok(!rows.is_empty())
}

/// The plan of these jobs; None of no jobs.
fn plan_with(serial: Serial, fast: bool, jobs: Sequence<Job>) -> Option<Plan>
    ensures { result ≡ plan_with serial fast jobs }
{
    match jobs.as_slice() {
        [] => None,
        [..] => Some(Plan { serial, jobs, fast }),
    }
}

/// The plan under a serial, of an item or of a landing, or None.
///
/// `NoMemory` where memory is refused, `Store` where a query fails, `Damaged` where a row isn't in form.
pub fn plan<S: Alter>(conn: &mut Connection<S>, number: Serial) -> Result<Option<Plan>, BookFault>
    ensures found { Tells (state S.Store conn.old) (state S.Store conn.new) result (λ b. stored_plan_at b number) }
    ensures opened { Opened (state S.Store conn.old) (state S.Store conn.new) result }
    ensures only_reads { IsOnlyRead (state S.Store conn.old) (state S.Store conn.new) }
{
    let jobs = jobs(conn, number)?;
    let fast = is_fast(conn, number)?;
    Ok(plan_with(number, fast, jobs))
}
