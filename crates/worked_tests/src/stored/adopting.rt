//! A file that is opened with other settings: stopped at each call of the disk, refused memory, or refused itself.
use crate::chapters::goes_on_over;
use crate::stored::disks::{Disks, Stop, closed, empty_files, opened};
use crate::stored::files::{SETTINGS, made_under, opened_under};
use crate::stored::rows::rows_in;
use crate::stored::stops::{does_or_leaves, each_stop_of};
use crate::stored::tables::empty;
use crate::stored::work::Work;
use gate_types::open_fault::OpenFault;
use sqlite::{Alter, Connection, Files};
use sqlite_disk::{Fuse, Memory};
use std::process::Abort;

/// The settings of a file.
const KEPT: &str = "core 2 1";

/// With these it has a queue more, in another order, and `core` has another window and other rules, its project other
/// jobs.
const OTHERS: &str = "core 5 2 behind web, docs votes, core doubles and loses five";

/// A file whose gate has items and builds, and all its rows.
fn filled<S: Alter + Drop>(
    rt: &(impl Abort + AllocGlobal),
    conn: Connection<S>,
    words: &str,
) -> (Connection<S>, String) {
    let conn = made_under(rt, conn, words);
    let mut conn = goes_on_over(rt, conn, words, "two taken", "tells two taken");
    let rows = rows_in(rt, &mut conn);
    (conn, rows)
}

/// The files of such a gate, closed, and all its rows.
fn filled_files<S: Alter + Drop, D: Disks<Database = Connection<S>>>(
    rt: &(impl Abort + AllocGlobal),
    disks: &D,
) -> (Files<Fuse<Memory>>, String) {
    let conn = opened(rt, disks, empty_files(rt, Stop::Never));
    let (conn, rows) = filled(rt, conn, KEPT);
    (closed(rt, disks, conn), rows)
}

/// Stops an opening with other settings.
pub(crate) fn each_stop_of_adopting<S: Alter + Drop, D: Disks<Database = Connection<S>>>(
    rt: &(impl Abort + AllocGlobal),
    disks: &D,
) {
    let (files, rows) = filled_files(rt, disks);
    let _ = each_stop_of(rt, disks, files, rows, Work::Opening { words: OTHERS });
}

/// The file isn't opened with these settings, and has the rows that it had.
fn stays<S: Alter + Drop>(
    rt: &(impl Abort + AllocGlobal),
    conn: Connection<S>,
    words: &str,
    rows: &str,
) -> Connection<S> {
    let (fault, mut conn) = opened_under(rt, conn, words);
    assert!(rt; fault == Some(OpenFault::OtherSettings));
    assert!(rt; rows_in(rt, &mut conn).as_str() == rows);
    conn
}

fn stays_under_all<S: Alter + Drop>(rt: &(impl Abort + AllocGlobal), conn: Connection<S>) {
    let (mut conn, rows) = filled(rt, conn, SETTINGS);
    for words in [
        "core 5 1",
        "core 5 1 and web, without site",
        "core 5 1 and web, site in core",
    ] {
        conn = stays(rt, conn, words, rows.as_str());
    }
}

#[test]
fn settings_that_are_refused_leave_all_rows(rt: HostRuntime) {
    stays_under_all(&rt, empty(&rt));
}

fn adopts_or_leaves<S: Alter + Drop>(rt: &(impl Abort + AllocGlobal), conn: Connection<S>) {
    let (conn, _rows) = filled(rt, conn, KEPT);
    does_or_leaves(rt, conn, Work::Opening { words: OTHERS });
}

/// Passes whichever one allocation is refused within the opening.
#[test]
fn a_refusal_of_memory_leaves_the_settings(rt: HostRuntime) {
    adopts_or_leaves(&rt, empty(&rt));
}
