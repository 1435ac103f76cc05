//! A file that is opened again, and what isn't opened.
use crate::stored::files::{SETTINGS, created_under, gate_in, gate_under, new_file, tells_over};
use crate::stored::tables::empty;
use gate_types::open_fault::OpenFault;
use sqlite::{Alter, Connection, params};
use std::process::Abort;

const NEED_IS_MISSING: &str =
    r#"{"id":"00000000-0000-4000-8000-000000000001","kind":"revision","change":101,"project":"lib","revision":1,"message":""}
{"id":"00000000-0000-4000-8000-000000000002","kind":"revision","change":102,"project":"app","revision":1,"message":"Depends-On: https://forge/c/101"}
{"id":"00000000-0000-4000-8000-000000000003","kind":"approved","change":102,"revision":1}
"#;

const MISSING: &str = r#"{"reply":"recorded"}
{"reply":"recorded"}
{"reply":"waiting"}
"#;

const ONE_WAITS: &str = "queue core window 2 landed 0
queue web window 2 landed 0
waiting 102 1
end
";

const NEED_COMES: &str =
    r#"{"id":"00000000-0000-4000-8000-000000000004","kind":"approved","change":101,"revision":1}
{"id":"00000000-0000-4000-8000-000000000003","kind":"approved","change":102,"revision":1}
{"id":"00000000-0000-4000-8000-000000000005","kind":"approved","change":102,"revision":1}
"#;

const CAME: &str = r#"{"order":1,"reply":"queued"}
{"reply":"waiting"}
{"reply":"already"}
"#;

const BOTH_QUEUED: &str = "queue core window 2 landed 0
     1       101    1      - ok      unit=waiting docs=waiting
     2       102    1      1 ok      unit=waiting
queue web window 2 landed 0
end
";

/// The gate of a new file has a waiting change then.
fn one_waits<S: Alter + Drop>(
    rt: &(impl Abort + AllocGlobal),
    conn: Connection<S>,
) -> Connection<S> {
    let gate = gate_in(rt, new_file(rt, conn));
    tells_over(rt, gate, NEED_IS_MISSING, MISSING, ONE_WAITS)
}

/// The gate in the file has a waiting change.
fn still_waits<S: Alter + Drop>(rt: &(impl Abort + AllocGlobal), conn: Connection<S>) {
    let _ = tells_over(rt, gate_in(rt, conn), "", "", ONE_WAITS);
}

/// A gate whose file is opened again knows what it was told, and goes on.
fn goes_on<S: Alter + Drop>(rt: &(impl Abort + AllocGlobal), conn: Connection<S>) -> Connection<S> {
    let conn = one_waits(rt, conn);
    let conn = tells_over(rt, gate_in(rt, conn), NEED_IS_MISSING, MISSING, ONE_WAITS);
    tells_over(rt, gate_in(rt, conn), NEED_COMES, CAME, BOTH_QUEUED)
}

/// The answers of the three gates together are those of one, and what was answered is answered so again.
#[test]
fn a_gate_goes_on_in_a_file_that_is_opened_again(rt: HostRuntime) {
    let _ = goes_on(&rt, empty(&rt));
}

/// And so in a database that has a table of somebody else, whose row stays.
fn goes_on_beside<S: Alter + Drop>(rt: &(impl Abort + AllocGlobal), mut conn: Connection<S>) {
    conn.execute("CREATE TABLE note (text TEXT)", &[])
        .expect(rt, "a table");
    conn.execute("INSERT INTO note VALUES ('kept')", &[])
        .expect(rt, "a row");
    let mut conn = goes_on(rt, conn);
    let notes = conn
        .query_all("SELECT text FROM note WHERE text = 'kept'", &[])
        .expect(rt, "the notes");
    assert!(rt; notes.len() == 1);
}

#[test]
fn a_gate_goes_on_beside_another_table(rt: HostRuntime) {
    goes_on_beside(&rt, empty(&rt));
}

/// The file isn't opened under these settings, and is handed back.
fn is_refused<S: Alter + Drop>(
    rt: &(impl Abort + AllocGlobal),
    conn: Connection<S>,
    words: &str,
    wanted: OpenFault,
) -> Connection<S> {
    match gate_under(rt, conn, words) {
        Ok(_) => panic!(rt; "the file is opened"),
        Err((fault, conn)) => {
            assert!(rt; fault == wanted);
            conn
        }
    }
}

/// A new file is made once, and isn't opened by a gate that lacks one of its queues.
fn keeps_its_gate<S: Alter + Drop>(rt: &(impl Abort + AllocGlobal), conn: Connection<S>) {
    let (fault, conn) = created_under(rt, one_waits(rt, conn), SETTINGS);
    assert!(rt; fault == Some(OpenFault::WrongFile));
    let conn = is_refused(rt, conn, "core 2 1", OpenFault::OtherSettings);
    still_waits(rt, conn);
}

/// What is refused leaves the gate in the file as before.
#[test]
fn a_file_is_made_once_and_keeps_its_queues(rt: HostRuntime) {
    keeps_its_gate(&rt, empty(&rt));
}

/// A file whose tables are of another version isn't opened, nor one that lacks a row of `meta`.
fn needs_its_meta<S: Alter + Drop>(rt: &(impl Abort + AllocGlobal), conn: Connection<S>) {
    let mut conn = one_waits(rt, conn);
    for version in ["1", "7"] {
        conn.execute(
            "UPDATE meta SET v = ?1 WHERE k = 'schema'",
            params![version],
        )
        .expect(rt, "a change");
        conn = is_refused(rt, conn, SETTINGS, OpenFault::OtherSchema);
    }
    conn.execute("DELETE FROM meta WHERE k = 'format'", &[])
        .expect(rt, "a change");
    is_refused(rt, conn, SETTINGS, OpenFault::WrongFile);
}

/// Nor an empty one.
#[test]
fn a_file_of_other_tables_is_not_opened(rt: HostRuntime) {
    is_refused(&rt, empty(&rt), SETTINGS, OpenFault::WrongFile);
    needs_its_meta(&rt, empty(&rt));
}
