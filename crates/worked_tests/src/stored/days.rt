//! A gate that is told a delivery of each kind, and stopped at each call of the disk in each of them.
use crate::stored::disks::{Disks, Stop, closed, empty_files, opened};
use crate::stored::files::made_under;
use crate::stored::rows::rows_in;
use crate::stored::stops::each_stop_of;
use crate::stored::work::Work;
use sqlite::{Alter, Connection, Files};
use sqlite_disk::{Fuse, Memory};
use std::process::Abort;

/// Each item of the day fails fast, so that it has a row of its own for this, besides those of its jobs.
const SETTINGS: &str = "core 2 1 and web, app fails fast";

/// Deliveries of all eight kinds, each accepted, and each changing a row besides its own: the approval of 101 lets both
/// changes enter.
const DAY: &str =
    r#"{"id":"00000000-0000-4000-8000-000000000001","kind":"revision","change":101,"project":"app","revision":1,"message":""}
{"id":"00000000-0000-4000-8000-000000000002","kind":"revision","change":102,"project":"app","revision":1,"message":"Depends-On: https://forge/c/101"}
{"id":"00000000-0000-4000-8000-000000000003","kind":"approved","change":102,"revision":1}
{"id":"00000000-0000-4000-8000-000000000004","kind":"approved","change":101,"revision":1}
{"id":"00000000-0000-4000-8000-000000000005","kind":"take","worker":"w1"}
{"id":"00000000-0000-4000-8000-000000000006","kind":"result","build":1,"outcome":"success"}
{"id":"00000000-0000-4000-8000-000000000007","kind":"landed","order":1}
{"id":"00000000-0000-4000-8000-000000000008","kind":"withdrawn","change":102,"revision":1}
{"id":"00000000-0000-4000-8000-000000000009","kind":"approved","change":102,"revision":1}
{"id":"00000000-0000-4000-8000-000000000010","kind":"take","worker":"w1"}
{"id":"00000000-0000-4000-8000-000000000011","kind":"result","build":2,"outcome":"success"}
{"id":"00000000-0000-4000-8000-000000000012","kind":"refused","order":3}
{"id":"00000000-0000-4000-8000-000000000013","kind":"closed","change":102,"revision":1}"#;

/// What each is answered.
const ANSWERS: &str = r#"{"reply":"recorded"}
{"reply":"recorded"}
{"reply":"waiting"}
{"order":1,"reply":"queued"}
{"after":0,"ahead":[],"build":1,"change":101,"job":"unit","queue":"core","reply":"build","revision":1}
{"reply":"noted"}
{"n":1,"reply":"landed"}
{"reply":"removed"}
{"order":3,"reply":"queued"}
{"after":1,"ahead":[],"build":2,"change":102,"job":"unit","queue":"core","reply":"build","revision":1}
{"reply":"noted"}
{"reply":"removed"}
{"reply":"recorded"}"#;

/// Makes a gate over the tables of a new file, and gives all its rows.
fn begun<S: Alter + Drop>(
    rt: &(impl Abort + AllocGlobal),
    conn: Connection<S>,
) -> (Connection<S>, String) {
    let mut conn = made_under(rt, conn, SETTINGS);
    let rows = rows_in(rt, &mut conn);
    (conn, rows)
}

/// The files of a gate that has seen no delivery, closed, and all its rows.
fn new_files<S: Alter + Drop, D: Disks<Database = Connection<S>>>(
    rt: &(impl Abort + AllocGlobal),
    disks: &D,
) -> (Files<Fuse<Memory>>, String) {
    let conn = opened(rt, disks, empty_files(rt, Stop::Never));
    let (conn, rows) = begun(rt, conn);
    (closed(rt, disks, conn), rows)
}

/// Stops each delivery of the day.
pub(crate) fn each_stop_of_the_day<S: Alter + Drop, D: Disks<Database = Connection<S>>>(
    rt: &(impl Abort + AllocGlobal),
    disks: &D,
) {
    let (mut files, mut rows) = new_files(rt, disks);
    for (said, answer) in DAY.lines().zip(ANSWERS.lines()) {
        let work = Work::Delivery {
            words: SETTINGS,
            said,
            answer,
        };
        (files, rows) = each_stop_of(rt, disks, files, rows, work);
    }
}
