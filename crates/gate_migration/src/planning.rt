//! The plans that a file of schema 1 gets, read of it with its settings.
ghost use Rattle.std.specs.Prelude.{◌≡◌, ◌&&◌, ◌++◌, ◌∷◌, [], ℕ, List, flat_map, map, IfOk, OnOk};
ghost use Rattle.sqlite.specs.Held.{state};
ghost use Rattle.sqlite.specs.State.{HasCleanDisk};
ghost use Rattle.gate_types.specs.Migrate.{plans_of_queue};
ghost use Rattle.gate_types.specs.State.{State as GateState, Queue as GateQueue};
ghost use Rattle.gate_types.specs.Tables.{change_row};
ghost use Rattle.gate_schema.specs.Rows.{Stored};
ghost use Rattle.gate_queue_queries.specs.First.{ShowsFirstIfOpen, pair_shown};
ghost use Rattle.gate_found_rows.specs.Reads.{IsOnlyRead};
ghost use Rattle.gate_migration.specs.Migrates.{TellsQueue, TellsState, plan_for, puts};

use gate_book_trait::BookFault;
use gate_found_rows::columns::{change_in, serial_in};
use gate_queue_queries::first_reads::{item_pairs, landing_pairs, project_name};
use gate_types::config::{Config, Job, Project};
use gate_types::edits::Edit;
use gate_types::names::{Name, NoMemory};
use gate_types::numbers::{ChangeNo, Serial};
use gate_types::records::Plan;
use gate_types::sequence::Sequence;
use sqlite::{Alter, Connection, Row};
use std::alloc::Global;

/// The jobs, copied one by one.
fn copied(alloc: Global, jobs: &[Job]) -> Result<Sequence<Job>, NoMemory>
    ensures { IfOk result (λ copies. copies ≡ jobs.now) }
{
    let mut copies = Vec::new(alloc);
    for job in jobs {
        copies.push(job.copy()?)?;
    }
    Ok(Sequence::from_vec(copies))
}

/// The plan of a serial by a project.
fn plan_by(
    alloc: Global,
    project: &Project,
    serial: Serial,
    may_fail_fast: bool,
) -> Result<Plan, NoMemory>
    ensures { IfOk result (λ p. p ≡ record {
      serial = serial;
      jobs = project.now.jobs;
      fast = may_fail_fast && project.now.fail_fast;
    }) }
{
    let fast = may_fail_fast && project.fail_fast;
    Ok(Plan {
        serial,
        jobs: copied(alloc, project.jobs.as_slice())?,
        fast,
    })
}

/// The plan of a serial by the project of a change.
fn plan_for<S: Alter>(
    alloc: Global,
    conn: &mut Connection<S>,
    config: &Config,
    serial: Serial,
    change: ChangeNo,
    may_fail_fast: bool,
) -> Result<Plan, BookFault>
    ensures found { HasCleanDisk (state S.Store conn.new) → (b : Stored) (s : GateState) →
        ShowsFirstIfOpen (state S.Store conn.old) b → b.changes ≡ map (change_row s.ready) s.changes →
        IfOk result (λ p. p ≡ plan_for config.now s may_fail_fast (serial, change)) }
    ensures only_reads { IsOnlyRead (state S.Store conn.old) (state S.Store conn.new) }
{
    let name = project_name(conn, change)?;
    match config.project(name.as_str()) {
        Some(project) => Ok(plan_by(alloc, project, serial, may_fail_fast)?),
        None => Err(BookFault::Damaged),
    }
}

/// The plan of a row.
fn plan_of<S: Alter>(
    alloc: Global,
    conn: &mut Connection<S>,
    config: &Config,
    row: &Row,
    may_fail_fast: bool,
) -> Result<Plan, BookFault>
    ensures found { HasCleanDisk (state S.Store conn.new) → (b : Stored) (s : GateState) →
        ShowsFirstIfOpen (state S.Store conn.old) b → b.changes ≡ map (change_row s.ready) s.changes → (pair : ℕ × ℕ) →
        row.now ≡ pair_shown pair.0 pair.1 →
        IfOk result (λ p. p ≡ plan_for config.now s may_fail_fast pair) }
    ensures only_reads { IsOnlyRead (state S.Store conn.old) (state S.Store conn.new) }
{
    let serial = serial_in(row, 0)?;
    let change = change_in(row, 1)?;
    plan_for(alloc, conn, config, serial, change, may_fail_fast)
}

/// Puts a plan behind the edits.
fn push_plan(edits: &mut Vec<Edit>, plan: Plan) -> Result<(), NoMemory>
    ensures { OnOk result (edits.new.items ≡ edits.old.items ++ puts (plan ∷ [])) }
{
    edits.push(Edit::PutPlan(plan))?;
    Ok(())
}

/// Puts the plans of all rows behind the edits.
fn push_plans<S: Alter>(
    alloc: Global,
    conn: &mut Connection<S>,
    config: &Config,
    rows: &[Row],
    may_fail_fast: bool,
    edits: &mut Vec<Edit>,
) -> Result<(), BookFault>
    ensures found { HasCleanDisk (state S.Store conn.new) → (b : Stored) (s : GateState) →
        ShowsFirstIfOpen (state S.Store conn.old) b → b.changes ≡ map (change_row s.ready) s.changes →
        (pairs : List (ℕ × ℕ)) → rows.now ≡ map (λ (p : ℕ × ℕ). pair_shown p.0 p.1) pairs →
        OnOk result (edits.new.items ≡ edits.old.items ++ puts (map (plan_for config.now s may_fail_fast) pairs)) }
    ensures only_reads { IsOnlyRead (state S.Store conn.old) (state S.Store conn.new) }
{
    for row in rows {
        let plan = plan_of(alloc, conn, config, row, may_fail_fast)?;
        push_plan(edits, plan)?;
    }
    Ok(())
}

/// Puts the plans of the items and the landings of a queue behind the edits.
fn push_queue<S: Alter>(
    alloc: Global,
    conn: &mut Connection<S>,
    config: &Config,
    queue: &Name,
    edits: &mut Vec<Edit>,
) -> Result<(), BookFault>
    ensures found { HasCleanDisk (state S.Store conn.new) → (b : Stored) (s : GateState) →
        ShowsFirstIfOpen (state S.Store conn.old) b → b.changes ≡ map (change_row s.ready) s.changes → (q : GateQueue) →
        q.name ≡ queue.now → TellsQueue b q →
        OnOk result (edits.new.items ≡ edits.old.items ++ puts (plans_of_queue config.now s q)) }
    ensures only_reads { IsOnlyRead (state S.Store conn.old) (state S.Store conn.new) }
{
    let items = item_pairs(conn, queue)?;
    push_plans(alloc, conn, config, &items, true, edits)?;
    let landings = landing_pairs(conn, queue)?;
    push_plans(alloc, conn, config, &landings, false, edits)
}

/// The edits that give each item and each landing its plan.
pub(crate) fn first_plans<S: Alter>(
    alloc: Global,
    conn: &mut Connection<S>,
    config: &Config,
) -> Result<Vec<Edit>, BookFault>
    ensures found { HasCleanDisk (state S.Store conn.new) → (b : Stored) (s : GateState) →
        ShowsFirstIfOpen (state S.Store conn.old) b → TellsState b config.now s →
        IfOk result (λ edits. edits.items ≡ puts (flat_map (plans_of_queue config.now s) s.queues)) }
    ensures only_reads { IsOnlyRead (state S.Store conn.old) (state S.Store conn.new) }
{
    let mut edits = Vec::new(alloc);
    for queue in config.queues.as_slice() {
        push_queue(alloc, conn, config, &queue.name, &mut edits)?;
    }
    Ok(edits)
}
