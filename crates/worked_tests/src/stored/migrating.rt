//! A file of schema 1 that is made one of schema 2.
use crate::chapters::goes_on_over;
use crate::claims::is;
use crate::stored::disks::{Disks, Stop, closed, empty_files, opened};
use crate::stored::files::{SETTINGS, made_under};
use crate::stored::first_schema::{
    CHANGES, CHANGES_WITH_INDEX, FAST_ROWS, LONG_ROWS, ROWS, TABLES_BEFORE, TABLES_BEHIND,
};
use crate::stored::rows::rows_in;
use crate::stored::stops::{does_or_leaves, each_stop_of};
use crate::stored::tables::{after, empty};
use crate::stored::work::Work;
use sqlite::{Alter, Connection, Files};
use sqlite_disk::{Fuse, Memory};
use std::alloc::{AllocError, Global};
use std::process::Abort;

/// A file of schema 1 with these rows, whose table of changes is made by these lines.
fn first_with<S: Alter + Drop>(
    rt: &(impl Abort + AllocGlobal),
    conn: Connection<S>,
    changes: &str,
    rows: &str,
) -> Connection<S> {
    let conn = after(rt, conn, TABLES_BEFORE);
    let conn = after(rt, conn, changes);
    let conn = after(rt, conn, TABLES_BEHIND);
    after(rt, conn, rows)
}

/// A file of schema 1 with a gate that has landed a change.
fn first<S: Alter + Drop>(rt: &(impl Abort + AllocGlobal), conn: Connection<S>) -> Connection<S> {
    first_with(rt, conn, CHANGES, ROWS)
}

/// These lines are so of such a file.
fn goes<S: Alter + Drop>(rt: &(impl Abort + AllocGlobal), conn: Connection<S>, lines: &str) {
    let _ = after(rt, first(rt, conn), lines);
}

/// Items and landings have the jobs of their projects then. Settings are asked for at schema 1 alone.
const MIGRATED: &str = "open: OtherSchema
migrate as core 2 1: OtherSettings
migrate as core 2 1 and web, docs votes: OtherSettings
migrate as core 3 1 and web: OtherSettings
open: OtherSchema
migrate: done
migrate: already
migrate as core 2 1: already
5 is SELECT count(*) FROM item_job
1 is SELECT count(*) FROM item_job WHERE serial = 1 AND place = 0 AND name = 'unit' AND voting = 1
1 is SELECT count(*) FROM item_job WHERE serial = 1 AND place = 1 AND name = 'docs' AND voting = 0
1 is SELECT count(*) FROM item_job WHERE serial = 2 AND place = 0 AND name = 'unit' AND voting = 1
1 is SELECT count(*) FROM item_job WHERE serial = 3 AND place = 0 AND name = 'unit' AND voting = 1
1 is SELECT count(*) FROM item_job WHERE serial = 3 AND place = 1 AND name = 'docs' AND voting = 0
0 is SELECT count(*) FROM item_fast
open: done
open as core 2 1 and web, without site: OtherSettings
open as core 2 1 and web, docs votes: done";

#[test]
fn a_file_of_schema_1_is_migrated_once(rt: HostRuntime) {
    goes(&rt, empty(&rt), MIGRATED);
}

/// Any table, index or view has one of the new names. That comes before other settings.
const NAMES_ARE_TAKEN: &str = "run CREATE VIEW Item_Job AS SELECT 1
migrate: WrongFile
migrate as core 2 1: WrongFile
run DROP VIEW Item_Job
run CREATE INDEX item_fast ON change(project)
migrate: WrongFile
open: OtherSchema
run DROP INDEX item_fast
migrate: done";

const ANOTHER_SCHEMA: &str = "run UPDATE meta SET v = '3' WHERE k = 'schema'
migrate: OtherSchema
migrate as core 2 1: OtherSchema
run DELETE FROM meta WHERE k = 'format'
migrate: WrongFile";

#[test]
fn what_is_not_of_schema_1_is_not_migrated(rt: HostRuntime) {
    goes(&rt, empty(&rt), NAMES_ARE_TAKEN);
    goes(&rt, empty(&rt), ANOTHER_SCHEMA);
    goes(&rt, empty(&rt), "run BEGIN\nmigrate: Unavailable");
    let _ = after(&rt, empty(&rt), "migrate: WrongFile");
}

/// The status is that of before, a delivery that was told is answered as it was, and the gate goes on.
const GOES_ON: &str = r#"status
queue core window 3 landed 1
     1       101    1      - failing unit=failure docs=running
     3       103    1      - ok      unit=waiting docs=waiting
queue web window 2 landed 0
end

> {"id":"0c000000-0000-4000-8000-000000000002","kind":"landed","order":2}
< {"n":1,"reply":"landed"}
> {"id":"0c000000-0000-4000-8000-000000000003","kind":"result","build":2,"outcome":"success"}
< {"reply":"noted"}

status
queue core window 1 landed 1
     3       103    1      - ok      unit=waiting docs=waiting
queue web window 2 landed 0
end

history core
history core
     1      2       102    1 landed          1
     2      1       101    1 failed          -
end 2

> {"id":"0c000000-0000-4000-8000-000000000004","kind":"take","worker":"w1"}
< {"after":1,"ahead":[],"build":5,"change":103,"job":"unit","queue":"core","reply":"build","revision":1}
> {"id":"0c000000-0000-4000-8000-000000000005","kind":"revision","change":104,"project":"app","revision":1,"message":"Depends-On: https://forge/c/900"}
< {"reply":"recorded"}
> {"id":"0c000000-0000-4000-8000-000000000006","kind":"approved","change":104,"revision":1}
< {"reply":"waiting"}
> {"id":"0c000000-0000-4000-8000-000000000007","kind":"approved","change":101,"revision":1}
< {"order":4,"reply":"queued"}

status
queue core window 1 landed 1
     3       103    1      - ok      unit=running docs=waiting
     4       101    1      3 ok      unit=waiting docs=waiting
queue web window 2 landed 0
waiting 104 1
end"#;

fn goes_on<S: Alter + Drop>(rt: &(impl Abort + AllocGlobal), conn: Connection<S>) {
    let conn = after(rt, first(rt, conn), "migrate: done");
    let _ = goes_on_over(rt, conn, SETTINGS, "a migrated file", GOES_ON);
}

#[test]
fn a_gate_goes_on_in_a_migrated_file(rt: HostRuntime) {
    goes_on(&rt, empty(&rt));
}

/// What led to the rows of the file of schema 1.
const LANDED: &str = r#"tells three taken

tells first failed

> {"id":"0c000000-0000-4000-8000-000000000001","kind":"result","build":4,"outcome":"success"}
< {"reply":"noted"}
> {"id":"0c000000-0000-4000-8000-000000000002","kind":"landed","order":2}
< {"n":1,"reply":"landed"}"#;

/// All rows of a file that is migrated, whose table of changes was made by these lines.
fn rows_of_migrated<S: Alter + Drop>(
    rt: &(impl Abort + AllocGlobal),
    conn: Connection<S>,
    changes: &str,
) -> String {
    let conn = first_with(rt, conn, changes, ROWS);
    let mut conn = after(rt, conn, "migrate: done");
    rows_in(rt, &mut conn)
}

/// All rows of a file whose gate was told the same.
fn rows_of_made<S: Alter + Drop>(rt: &(impl Abort + AllocGlobal), conn: Connection<S>) -> String {
    let conn = made_under(rt, conn, SETTINGS);
    let mut conn = goes_on_over(rt, conn, SETTINGS, "a made file", LANDED);
    rows_in(rt, &mut conn)
}

/// The rows behind the first line, which has the names of tables and indexes.
fn without_names<'a>(rt: &impl Abort, rows: &'a str) -> &'a str {
    let (_names, rows) = rows.split_once('\n').expect(rt, rows);
    rows
}

#[test]
fn a_migrated_file_has_the_rows_of_one_that_was_made(rt: HostRuntime) {
    let migrated = rows_of_migrated(&rt, empty(&rt), CHANGES);
    let made = rows_of_made(&rt, empty(&rt));
    is(
        &rt,
        without_names(&rt, migrated.as_str()),
        without_names(&rt, made.as_str()),
        "all rows",
    );
}

#[test]
fn a_migrated_file_with_an_index_of_approvals_is_as_one_that_was_made(rt: HostRuntime) {
    let migrated = rows_of_migrated(&rt, empty(&rt), CHANGES_WITH_INDEX);
    let made = rows_of_made(&rt, empty(&rt));
    is(
        &rt,
        migrated.as_str(),
        made.as_str(),
        "all tables, indexes and rows",
    );
}

/// An item of a project that fails fast is marked, and no landing.
const FAST: &str = "migrate: OtherSettings
migrate as core 2 1 and web, lib fails fast: done
2 is SELECT count(*) FROM item_fast
1 is SELECT count(*) FROM item_fast WHERE serial = 3
1 is SELECT count(*) FROM item_fast WHERE serial = 5
8 is SELECT count(*) FROM item_job
2 is SELECT count(*) FROM item_job WHERE serial = 1
1 is SELECT count(*) FROM item_job WHERE serial = 2
2 is SELECT count(*) FROM item_job WHERE serial = 3
1 is SELECT count(*) FROM item_job WHERE serial = 4
2 is SELECT count(*) FROM item_job WHERE serial = 5";

/// One failed job of the item ends the other.
const FAST_GOES_ON: &str = r#"status
queue core window 4 landed 2
     3       103    1      - ok      unit=running docs=running
     4       104    1      3 ok      unit=waiting
     5       105    1      4 ok      unit=waiting docs=waiting
queue web window 2 landed 0
end

> {"id":"0c000000-0000-4000-8000-000000000001","kind":"result","build":4,"outcome":"failure"}
< {"reply":"noted"}
> {"id":"0c000000-0000-4000-8000-000000000002","kind":"result","build":5,"outcome":"success"}
< {"reply":"stale"}

status
queue core window 2 landed 2
     4       104    1      - ok      unit=waiting
     5       105    1      4 ok      unit=waiting docs=waiting
queue web window 2 landed 0
end"#;

fn fails_fast<S: Alter + Drop>(rt: &(impl Abort + AllocGlobal), conn: Connection<S>) {
    let conn = first_with(rt, conn, CHANGES, FAST_ROWS);
    let conn = after(rt, conn, FAST);
    let words = "core 2 1 and web, lib fails fast";
    let _ = goes_on_over(rt, conn, words, "a fast project", FAST_GOES_ON);
}

#[test]
fn queued_items_of_a_migrated_file_fail_fast(rt: HostRuntime) {
    fails_fast(&rt, empty(&rt));
}

/// The lines that write the rows of 5,000 landings. Builds on two jobs have shown each.
fn landings(alloc: Global) -> Result<String, AllocError> {
    let mut lines = String::new(alloc);
    for base in 0..5000u32 {
        let n = base.saturating_add(1);
        write!(
            lines,
            "run INSERT INTO change VALUES ({n}, 'lib', 1, 'landed', NULL)\n\
             run INSERT INTO build VALUES ({n}, 'core', {n}, {n}, 1, 'unit', {base}, '[]', 'success', 1)\n\
             run INSERT INTO build VALUES (100{n:04}, 'core', {n}, {n}, 1, 'docs', {base}, '[]', 'success', 1)\n\
             run INSERT INTO landing VALUES ('core', {n}, {n}, {n}, 1)\n\
             run INSERT INTO report VALUES ('core', {n}, {n}, {n}, 1, 'landed', {n})\n"
        )?;
    }
    Ok(lines)
}

/// The change in the middle has another project. Each landing gets the jobs of its own.
const LONG: &str = "run UPDATE change SET project = 'app' WHERE num = 500
run DELETE FROM build WHERE serial = 500 AND job = 'docs'
open: OtherSchema
migrate: done
open: done
9999 is SELECT count(*) FROM item_job
2 is SELECT count(*) FROM item_job WHERE serial = 1
1 is SELECT count(*) FROM item_job WHERE serial = 1 AND place = 0 AND name = 'unit' AND voting = 1
1 is SELECT count(*) FROM item_job WHERE serial = 1 AND place = 1 AND name = 'docs' AND voting = 0
1 is SELECT count(*) FROM item_job WHERE serial = 500
1 is SELECT count(*) FROM item_job WHERE serial = 500 AND place = 0 AND name = 'unit' AND voting = 1
2 is SELECT count(*) FROM item_job WHERE serial = 5000
1 is SELECT count(*) FROM item_job WHERE serial = 5000 AND place = 0 AND name = 'unit' AND voting = 1
1 is SELECT count(*) FROM item_job WHERE serial = 5000 AND place = 1 AND name = 'docs' AND voting = 0
0 is SELECT count(*) FROM item_fast";

const LONG_GOES_ON: &str = r#"status
queue core window 1000 landed 5000
queue web window 2 landed 0
end

> {"id":"0c000000-0000-4000-8000-000000000001","kind":"revision","change":5001,"project":"app","revision":1,"message":"Depends-On: https://forge/c/5000"}
< {"reply":"recorded"}
> {"id":"0c000000-0000-4000-8000-000000000002","kind":"approved","change":5001,"revision":1}
< {"order":5001,"reply":"queued"}

status
queue core window 1000 landed 5000
  5001      5001    1      - ok      unit=waiting
queue web window 2 landed 0
end"#;

/// A file of schema 1 with 5,000 landings.
fn long<S: Alter + Drop>(rt: &(impl Abort + AllocGlobal), conn: Connection<S>) -> Connection<S> {
    let lines = landings(rt.alloc()).expect(rt, "memory");
    let conn = first_with(rt, conn, CHANGES, LONG_ROWS);
    after(rt, conn, lines.as_str())
}

fn a_long_history_goes_on<S: Alter + Drop>(rt: &(impl Abort + AllocGlobal), conn: Connection<S>) {
    let conn = after(rt, long(rt, conn), LONG);
    let _ = goes_on_over(rt, conn, SETTINGS, "5,000 landings", LONG_GOES_ON);
}

#[test]
fn all_5_000_landings_are_migrated(rt: HostRuntime) {
    a_long_history_goes_on(&rt, empty(&rt));
}

/// The files of such a gate, closed, and all its rows.
fn first_files<S: Alter + Drop, D: Disks<Database = Connection<S>>>(
    rt: &(impl Abort + AllocGlobal),
    disks: &D,
) -> (Files<Fuse<Memory>>, String) {
    let conn = opened(rt, disks, empty_files(rt, Stop::Never));
    let (conn, rows) = with_rows(rt, first(rt, conn));
    (closed(rt, disks, conn), rows)
}

fn with_rows<S: Alter + Drop>(
    rt: &(impl Abort + AllocGlobal),
    mut conn: Connection<S>,
) -> (Connection<S>, String) {
    let rows = rows_in(rt, &mut conn);
    (conn, rows)
}

/// Stops the migration.
pub(crate) fn each_stop_of_migrating<S: Alter + Drop, D: Disks<Database = Connection<S>>>(
    rt: &(impl Abort + AllocGlobal),
    disks: &D,
) {
    let (files, rows) = first_files(rt, disks);
    let _ = each_stop_of(rt, disks, files, rows, Work::Migration { words: SETTINGS });
}

fn migrates_or_leaves<S: Alter + Drop>(rt: &(impl Abort + AllocGlobal), conn: Connection<S>) {
    does_or_leaves(rt, first(rt, conn), Work::Migration { words: SETTINGS });
}

/// Passes whichever one allocation is refused within the migration.
#[test]
fn a_refusal_of_memory_leaves_a_file_of_schema_1(rt: HostRuntime) {
    migrates_or_leaves(&rt, empty(&rt));
}
