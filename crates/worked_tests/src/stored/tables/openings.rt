//! Files in memory made, opened and refused.
use crate::settings::config;
use crate::stored::files::SETTINGS;
use crate::stored::tables::{after, empty};
use gate_sql::SqlBook;
use sqlite::{Connection, MemStore};
use std::process::Abort;

/// Each line is so of an empty file.
fn goes(rt: &(impl Abort + AllocGlobal), lines: &str) {
    let _ = after(rt, empty(rt), lines);
}

const REOPENED: &str = "create as core 0 1 and web: done
open as core 0 1 and web: done
0 is SELECT win FROM queue WHERE name = 'core' AND place = 0
2 is SELECT win FROM queue WHERE name = 'web' AND place = 1
2 is SELECT count(*) FROM queue
0 is SELECT sum(drawn) FROM counter";

#[test]
fn a_made_file_opens_again(rt: HostRuntime) {
    goes(&rt, REOPENED);
}

#[test]
fn a_file_is_made_once(rt: HostRuntime) {
    goes(&rt, "create: done\ncreate: WrongFile\nopen: done");
}

const VIEW_OF_OUR_NAME: &str = "run CREATE VIEW Landing AS SELECT 1
create: WrongFile
1 is SELECT count(*) FROM sqlite_schema";

#[test]
fn a_file_with_a_view_of_our_name_is_refused(rt: HostRuntime) {
    goes(&rt, VIEW_OF_OUR_NAME);
}

const OTHER_SETTINGS: &str = "create: done
open as core 2 1: OtherSettings
open as core 2 1 and web, without site: OtherSettings
open as core 2 1 and web, site in core: OtherSettings
open: done";

/// They lack a queue or a project that the file keeps, or have a project of it in another queue.
#[test]
fn settings_that_lack_what_is_kept_are_refused(rt: HostRuntime) {
    goes(&rt, OTHER_SETTINGS);
}

const ADOPTED_BESIDE_ANOTHERS_QUEUE: &str = "create: done
run DROP TABLE queue
run CREATE TABLE queue (name TEXT, win INTEGER)
run INSERT INTO queue VALUES ('core', 2)
open as core 0 1 and web: Unavailable
1 is SELECT count(*) FROM queue
open: done";

/// Where other settings can't be taken since a table is no gate's, the file is as it was.
#[test]
fn settings_that_can_not_be_written_leave_the_file(rt: HostRuntime) {
    goes(&rt, ADOPTED_BESIDE_ANOTHERS_QUEUE);
}

const META_IS_A_VIEW: &str = "run CREATE TABLE kept (k TEXT, v TEXT)
run INSERT INTO kept VALUES ('format', 'gate'), ('schema', '7'), ('settings', '')
run CREATE VIEW meta AS SELECT k, v FROM kept
open: OtherSchema
run UPDATE kept SET v = '2' WHERE k = 'schema'
open: OtherSettings
run DELETE FROM kept WHERE k = 'format'
open: WrongFile";

/// A view is read as a table is.
#[test]
fn a_view_of_kept_settings_is_judged(rt: HostRuntime) {
    goes(&rt, META_IS_A_VIEW);
}

const ANOTHER_VERSION: &str = "create: done
run UPDATE meta SET v = '1' WHERE k = 'schema'
open: OtherSchema
run UPDATE meta SET v = '3' WHERE k = 'schema'
open: OtherSchema";

#[test]
fn another_version_is_refused(rt: HostRuntime) {
    goes(&rt, ANOTHER_VERSION);
}

const WITHOUT_FORMAT: &str = "create: done
run DELETE FROM meta WHERE k = 'format'
open: WrongFile";

#[test]
fn a_file_of_another_form_is_refused(rt: HostRuntime) {
    goes(&rt, "open: WrongFile");
    goes(&rt, WITHOUT_FORMAT);
}

#[test]
fn a_transaction_under_way_is_refused(rt: HostRuntime) {
    goes(&rt, "run BEGIN\ncreate: Unavailable\nopen: Unavailable");
}

/// Whether the store of a file opens again.
fn store_opens(rt: &(impl Abort + AllocGlobal), conn: Connection<MemStore>) -> bool {
    let config = config(rt, SETTINGS);
    let store = conn.into_store();
    SqlBook::open_store(rt.alloc(), store, &config).is_ok()
}

#[test]
fn a_store_opens_again(rt: HostRuntime) {
    let made = after(&rt, empty(&rt), "create: done");
    assert!(rt; store_opens(&rt, made));
}
