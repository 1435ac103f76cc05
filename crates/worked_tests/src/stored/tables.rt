//! A book over the tables of a file in memory: settings, and what becomes of the file, line by line.
//!
//! `create: done` makes a file's tables, `open: done` opens them, and `migrate: done` makes those of schema 1 ones of
//! schema 2; `migrate: already` finds that they are. A fault stands by its name, as in
//! `open as core 2 1: OtherSettings`, which opens them under other settings. `run DELETE FROM meta` runs a statement,
//! and `2 is SELECT count(*) FROM queue` is a query with the number that it gives.
mod histories;
mod openings;

use crate::chapters::goes_on_over;
use crate::claims::{holds, is};
use crate::settings::config;
use crate::stored::files::{SETTINGS, created_under, opened_under, outcome};
use gate_sql::{Migrated, migrate};
use sqlite::{Alter, Connection, Error, MemStore};
use std::process::Abort;

/// Migrates a file, and says what came of it.
fn migrated<S: Alter>(
    rt: &(impl Abort + AllocGlobal),
    conn: &mut Connection<S>,
    words: &str,
) -> &'static str {
    let config = config(rt, words);
    match migrate(rt.alloc(), conn, &config) {
        Ok(Migrated::Done) => "done",
        Ok(Migrated::Already) => "already",
        Err(fault) => outcome(Some(fault)),
    }
}

// These have no clause, so that the proof of a line does not carry the state of each call.

/// Whether a statement runs.
fn runs<S: Alter>(conn: &mut Connection<S>, sql: &str) -> bool {
    conn.execute(sql, &[]).is_ok()
}

/// The number that a query gives.
fn number<S: Alter>(conn: &mut Connection<S>, sql: &str) -> Result<i64, Error> {
    conn.query_row(sql, &[])?.get(0)
}

/// Whether a query gives the number that is written.
fn gives<S: Alter>(conn: &mut Connection<S>, sql: &str, wanted: &str) -> bool {
    match (number(conn, sql), wanted.parse::<i64>()) {
        (Ok(number), Ok(wanted)) => number == wanted,
        _ => false,
    }
}

/// Makes, opens or migrates tables, and says what came of it; the connection is given back.
fn goes<S: Alter + Drop>(
    rt: &(impl Abort + AllocGlobal),
    mut conn: Connection<S>,
    verb: &str,
    words: &str,
) -> (&'static str, Connection<S>) {
    if verb == "migrate" {
        return (migrated(rt, &mut conn, words), conn);
    }
    let (fault, conn) = match verb {
        "create" => created_under(rt, conn, words),
        "open" => opened_under(rt, conn, words),
        _ => panic!(rt; "nothing to do with a file: {verb}"),
    };
    (outcome(fault), conn)
}

/// The line is so where it makes, opens or migrates tables; the connection is given back.
fn is_done<S: Alter + Drop>(
    rt: &(impl Abort + AllocGlobal),
    conn: Connection<S>,
    line: &str,
) -> Connection<S> {
    let (verb, wanted) = line.split_once(": ").expect(rt, line);
    let (verb, words) = verb.split_once(" as ").unwrap_or((verb, SETTINGS));
    let (came, conn) = goes(rt, conn, verb, words);
    is(rt, came, wanted, line);
    conn
}

/// The line is so; the connection is given back.
fn is_so<S: Alter + Drop>(
    rt: &(impl Abort + AllocGlobal),
    mut conn: Connection<S>,
    line: &str,
) -> Connection<S> {
    if let Some(sql) = line.strip_prefix("run ") {
        holds(rt, runs(&mut conn, sql), line);
        conn
    } else if let Some((wanted, sql)) = line.split_once(" is ") {
        holds(rt, gives(&mut conn, sql, wanted), line);
        conn
    } else {
        is_done(rt, conn, line)
    }
}

/// What is left of a file when each line was so.
pub(crate) fn after<S: Alter + Drop>(
    rt: &(impl Abort + AllocGlobal),
    mut conn: Connection<S>,
    lines: &str,
) -> Connection<S> {
    for line in lines.lines() {
        conn = is_so(rt, conn, line);
    }
    conn
}

/// The gate in a file with these settings is told this, and its tables have these rows then.
pub(crate) fn has_then<S: Alter + Drop>(
    rt: &(impl Abort + AllocGlobal),
    conn: Connection<S>,
    words: &str,
    told: &str,
    rows: &str,
) -> Connection<S> {
    let conn = goes_on_over(rt, conn, words, rows, told);
    after(rt, conn, rows)
}

/// An empty file.
pub(crate) fn empty(rt: &(impl Abort + AllocGlobal)) -> Connection<MemStore> {
    Connection::open_in_memory(rt.alloc()).expect(rt, "memory")
}
