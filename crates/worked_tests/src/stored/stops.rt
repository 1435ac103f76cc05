//! A gate's file that is stopped at each call of the disk while something is done to it.
use crate::claims::both_came;
use crate::stored::disks::{Disks, Stop, closed, copied, crashed, opened, options};
use crate::stored::rows::rows_in;
use crate::stored::work::{Came, Work, done};
use sqlite::{Alter, Connection, Files};
use sqlite_disk::{Fuse, Memory};
use std::process::Abort;

/// How a run ended: what came of the work; whether nothing stopped the run; and what it left of the files.
#[derive(Drop)]
struct Run {
    came: Came,
    is_whole: bool,
    left: Files<Fuse<Memory>>,
}

/// Opens the files, does the work, and closes them.
fn one_run<S: Alter + Drop, D: Disks<Database = Connection<S>>>(
    rt: &(impl Abort + AllocGlobal),
    disks: &D,
    files: Files<Fuse<Memory>>,
    work: Work<'_>,
) -> Run {
    let conn = match disks.connected(files, options()) {
        Ok(conn) => conn,
        Err(left) => {
            return Run {
                came: Came::Nothing,
                is_whole: false,
                left,
            };
        }
    };
    let (came, conn) = done(rt, conn, work);
    let (is_whole, left) = disks.closed(conn);
    Run {
        came,
        is_whole,
        left,
    }
}

/// All rows of a file, what comes of the work then, and all rows after that.
#[derive(Drop)]
struct Found {
    rows: String,
    came: Came,
    rows_then: String,
}

fn found_in<S: Alter + Drop>(
    rt: &(impl Abort + AllocGlobal),
    mut conn: Connection<S>,
    work: Work<'_>,
) -> Found {
    let rows = rows_in(rt, &mut conn);
    let (came, mut conn) = done(rt, conn, work);
    let rows_then = rows_in(rt, &mut conn);
    Found {
        rows,
        came,
        rows_then,
    }
}

/// What is found in the files after a crash.
fn found_after_a_crash<S: Alter + Drop, D: Disks<Database = Connection<S>>>(
    rt: &(impl Abort + AllocGlobal),
    disks: &D,
    files: Files<Fuse<Memory>>,
    work: Work<'_>,
) -> Found {
    found_in(rt, opened(rt, disks, crashed(files)), work)
}

/// The files before the work, and all rows before it and after it.
#[derive(Drop)]
struct Step {
    files: Files<Fuse<Memory>>,
    before: String,
    after: String,
}

/// Whether a run with a stop ended without meeting it, and whether the work was found done after a crash.
#[derive(Clone, Copy)]
struct End {
    is_whole: bool,
    is_done: bool,
}

/// After a stop and a crash the rows are those before the work or those after it, and those after it if it was done.
/// Done again, it comes to the same, and the rows are those after it.
fn stopped<S: Alter + Drop, D: Disks<Database = Connection<S>>>(
    rt: &(impl Abort + AllocGlobal),
    disks: &D,
    step: &Step,
    work: Work<'_>,
    stop: Stop,
) -> End {
    let run = one_run(rt, disks, copied(rt, &step.files, stop), work);
    let was_done = run.came == work.comes(false);
    let found = found_after_a_crash(rt, disks, run.left, work);
    let is_done = found.rows.as_str() == step.after.as_str();
    assert!(rt; is_done || !was_done);
    assert!(rt; is_done || found.rows.as_str() == step.before.as_str());
    assert!(rt; found.came == work.comes(is_done));
    assert!(rt; found.rows_then.as_str() == step.after.as_str());
    End {
        is_whole: run.is_whole,
        is_done,
    }
}

/// One of the files stops at each call in turn, until a run ends without a stop. Gives how many runs left the file as
/// before the work, and how many as after it.
fn each_stop<S: Alter + Drop, D: Disks<Database = Connection<S>>>(
    rt: &(impl Abort + AllocGlobal),
    disks: &D,
    step: &Step,
    work: Work<'_>,
    is_log: bool,
) -> (u32, u32) {
    let mut before = 0u32;
    let mut after = 0u32;
    for calls in 0..10_000 {
        let end = stopped(rt, disks, step, work, Stop::after(is_log, calls));
        if end.is_whole {
            return (before, after);
        }
        if end.is_done {
            after = after.saturating_add(1);
        } else {
            before = before.saturating_add(1);
        }
    }
    panic!(rt; "each run is stopped")
}

/// The work is done, which changes the file. Gives all its rows then.
fn done_in<S: Alter + Drop>(
    rt: &(impl Abort + AllocGlobal),
    conn: Connection<S>,
    before: &str,
    work: Work<'_>,
) -> (Connection<S>, String) {
    let (came, mut conn) = done(rt, conn, work);
    assert!(rt; came == work.comes(false));
    let rows = rows_in(rt, &mut conn);
    assert!(rt; rows.as_str() != before);
    (conn, rows)
}

/// The files after work that nothing stops, and all their rows.
fn after<S: Alter + Drop, D: Disks<Database = Connection<S>>>(
    rt: &(impl Abort + AllocGlobal),
    disks: &D,
    files: Files<Fuse<Memory>>,
    before: &str,
    work: Work<'_>,
) -> (Files<Fuse<Memory>>, String) {
    let (conn, rows) = done_in(rt, opened(rt, disks, files), before, work);
    (closed(rt, disks, conn), rows)
}

/// Stops the work at each call of the log, then at each call of the database file; and goes on to the files after it.
pub(crate) fn each_stop_of<S: Alter + Drop, D: Disks<Database = Connection<S>>>(
    rt: &(impl Abort + AllocGlobal),
    disks: &D,
    files: Files<Fuse<Memory>>,
    before: String,
    work: Work<'_>,
) -> (Files<Fuse<Memory>>, String) {
    let copies = copied(rt, &files, Stop::Never);
    let (next, after) = after(rt, disks, copies, before.as_str(), work);
    let step = Step {
        files,
        before,
        after,
    };
    for is_log in [true, false] {
        let ends = each_stop(rt, disks, &step, work, is_log);
        both_came(rt, ends, "before and after the work");
    }
    (next, step.after)
}

/// The work is done, or memory was refused: then the rows are as before, and it is done when it is tried again.
pub(crate) fn does_or_leaves<S: Alter + Drop>(
    rt: &(impl Abort + AllocGlobal),
    mut conn: Connection<S>,
    work: Work<'_>,
) {
    let before = rows_in(rt, &mut conn);
    let (came, mut conn) = done(rt, conn, work);
    let rows = rows_in(rt, &mut conn);
    if came == Came::Nothing {
        assert!(rt; rows.as_str() == before.as_str());
        let _ = done_in(rt, conn, before.as_str(), work);
    } else {
        assert!(rt; rows.as_str() != before.as_str());
    }
}
