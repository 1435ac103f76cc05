//! All rows of a gate's file.
use sqlite::{Alter, Connection};
use std::process::Abort;

/// The names of all tables and indexes, and all rows of the ten tables that each version has.
const TABLES: [&str; 11] = [
    "SELECT name FROM sqlite_schema",
    "SELECT * FROM meta",
    "SELECT * FROM counter",
    "SELECT * FROM queue",
    "SELECT * FROM change",
    "SELECT * FROM need",
    "SELECT * FROM item",
    "SELECT * FROM build",
    "SELECT * FROM landing",
    "SELECT * FROM report",
    "SELECT * FROM delivery",
];

/// All rows of the two tables that schema 1 lacks.
const NEW_TABLES: [&str; 2] = [
    "SELECT * FROM item_job ORDER BY serial, place",
    "SELECT * FROM item_fast",
];

/// The rows of all tables, as a text.
pub(crate) fn rows_in<S: Alter>(
    rt: &(impl Abort + AllocGlobal),
    conn: &mut Connection<S>,
) -> String {
    let mut rows = String::new(rt.alloc());
    for table in TABLES {
        let read = conn.query_all(table, &[]).expect(rt, "rows");
        write!(rows, "{table}: {:?}\n", read.as_slice()).expect(rt, "memory");
    }
    for table in NEW_TABLES {
        match conn.query_all(table, &[]) {
            Ok(read) => write!(rows, "{table}: {:?}\n", read.as_slice()),
            Err(_) => write!(rows, "{table}: none\n"),
        }
        .expect(rt, "memory");
    }
    rows
}
