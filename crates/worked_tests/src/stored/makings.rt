//! A gate's file that is stopped at each call of the disk while its tables are made.
use crate::claims::both_came;
use crate::stored::disks::{Disks, Stop, crashed, empty_files, opened, options};
use crate::stored::files::{SETTINGS, created_under, gate_under, tells_over};
use gate_types::open_fault::OpenFault;
use sqlite::{Alter, Connection, Files};
use sqlite_disk::{Fuse, Memory};
use std::process::Abort;

/// The status of a gate that has seen no delivery.
const NO_DELIVERY: &str = "queue core window 2 landed 0
queue web window 2 landed 0
end
";

/// Makes a gate in new files, one of which stops after so many calls; and closes them. Whether nothing stopped that.
fn made<S: Alter + Drop, D: Disks<Database = Connection<S>>>(
    rt: &(impl Abort + AllocGlobal),
    disks: &D,
    stop: Stop,
) -> (bool, Files<Fuse<Memory>>) {
    let conn = match disks.connected(empty_files(rt, stop), options()) {
        Ok(conn) => conn,
        Err(left) => return (false, left),
    };
    let (fault, conn) = created_under(rt, conn, SETTINGS);
    let (is_closed, files) = disks.closed(conn);
    (fault.is_none() && is_closed, files)
}

/// No table is in the file.
fn has_no_table<S: Alter>(rt: &(impl Abort + AllocGlobal), conn: &mut Connection<S>) {
    let tables = conn
        .query_all("SELECT name FROM sqlite_schema", &[])
        .expect(rt, "the tables");
    assert!(rt; tables.len() == 0);
}

/// In the file is a gate that has seen no delivery, or no table. Gives whether it is a gate.
fn has_gate_or_nothing<S: Alter + Drop>(
    rt: &(impl Abort + AllocGlobal),
    conn: Connection<S>,
) -> bool {
    match gate_under(rt, conn, SETTINGS) {
        Ok(gate) => {
            let _ = tells_over(rt, gate, "", "", NO_DELIVERY);
            true
        }
        Err((fault, mut conn)) => {
            assert!(rt; fault == OpenFault::WrongFile);
            has_no_table(rt, &mut conn);
            false
        }
    }
}

/// What `has_gate_or_nothing` says of files after a crash.
fn is_made_after_a_crash<S: Alter + Drop, D: Disks<Database = Connection<S>>>(
    rt: &(impl Abort + AllocGlobal),
    disks: &D,
    files: Files<Fuse<Memory>>,
) -> bool {
    has_gate_or_nothing(rt, opened(rt, disks, crashed(files)))
}

/// Stops the making of a gate at each call of one of the files, until a run ends without a stop. Gives how many runs
/// left no table, and how many a gate.
fn each_stop_of_making<S: Alter + Drop, D: Disks<Database = Connection<S>>>(
    rt: &(impl Abort + AllocGlobal),
    disks: &D,
    is_log: bool,
) -> (u32, u32) {
    let mut none = 0u32;
    let mut some = 0u32;
    for calls in 0..10_000 {
        let (is_whole, left) = made(rt, disks, Stop::after(is_log, calls));
        let is_made = is_made_after_a_crash(rt, disks, left);
        if is_whole {
            assert!(rt; is_made);
            return (none, some);
        }
        if is_made {
            some = some.saturating_add(1);
        } else {
            none = none.saturating_add(1);
        }
    }
    panic!(rt; "each run is stopped")
}

/// Stops the making at each call of the log, then at each call of the database file.
pub(crate) fn all_stops_of_making<S: Alter + Drop, D: Disks<Database = Connection<S>>>(
    rt: &(impl Abort + AllocGlobal),
    disks: &D,
) {
    for is_log in [true, false] {
        let ends = each_stop_of_making(rt, disks, is_log);
        both_came(rt, ends, "without a table and with a gate");
    }
}
