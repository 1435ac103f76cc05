//! What is done to a gate's file: a delivery is told to its gate, it is opened, or migrated.
use crate::settings::config;
use crate::stored::files::{gate_under, opened_under, said_over};
use gate_sql::{Migrated, migrate};
use gate_types::open_fault::OpenFault;
use sqlite::{Alter, Connection};
use std::process::Abort;

/// What is done, under settings of these words.
#[derive(Clone, Copy)]
pub(crate) enum Work<'a> {
    /// The gate is told this line, and gives this answer.
    Delivery {
        words: &'a str,
        said: &'a str,
        answer: &'a str,
    },
    /// The file is opened.
    Opening {
        words: &'a str,
    },
    /// It is made one of schema 2.
    Migration {
        words: &'a str,
    },
}

/// What comes of it.
#[derive(Clone, Copy, PartialEq, Eq)]
pub(crate) enum Came {
    /// It isn't done.
    Nothing,
    /// It is done.
    Done,
    /// It had been done, and this was told.
    Already,
}

impl Work<'_> {
    /// What comes of it where nothing stops it: whether it had been done before.
    pub(crate) fn comes(&self, is_done: bool) -> Came {
        match self {
            Work::Migration { words: _ } if is_done => Came::Already,
            _ => Came::Done,
        }
    }
}

/// Whether a line with an end is written.
fn is_line(written: &[u8], wanted: &str) -> bool {
    match written {
        [line @ .., b'\n'] => line == wanted.as_bytes(),
        _ => false,
    }
}

/// The gate in the file is told a line.
fn told<S: Alter + Drop>(
    rt: &(impl Abort + AllocGlobal),
    conn: Connection<S>,
    words: &str,
    said: &str,
    answer: &str,
) -> (Came, Connection<S>) {
    match gate_under(rt, conn, words) {
        Ok(gate) => {
            let (written, conn) = said_over(rt.alloc(), gate, said);
            let is_told = written.is_ok_and(|written| is_line(written.as_slice(), answer));
            (if is_told { Came::Done } else { Came::Nothing }, conn)
        }
        Err((_, conn)) => (Came::Nothing, conn),
    }
}

/// What came of it where there is this fault, which is that of a store that fails, or none.
fn came_of(rt: &impl Abort, fault: Option<OpenFault>) -> Came {
    match fault {
        None => Came::Done,
        Some(fault) => {
            assert!(rt; fault == OpenFault::Unavailable);
            Came::Nothing
        }
    }
}

/// The file is opened.
fn opened<S: Alter + Drop>(
    rt: &(impl Abort + AllocGlobal),
    conn: Connection<S>,
    words: &str,
) -> (Came, Connection<S>) {
    let (fault, conn) = opened_under(rt, conn, words);
    (came_of(rt, fault), conn)
}

/// The file is migrated.
fn migrated<S: Alter>(
    rt: &(impl Abort + AllocGlobal),
    conn: &mut Connection<S>,
    words: &str,
) -> Came {
    let config = config(rt, words);
    match migrate(rt.alloc(), conn, &config) {
        Ok(Migrated::Done) => Came::Done,
        Ok(Migrated::Already) => Came::Already,
        Err(fault) => came_of(rt, Some(fault)),
    }
}

/// Does it to the file of a connection, which is given back.
pub(crate) fn done<S: Alter + Drop>(
    rt: &(impl Abort + AllocGlobal),
    mut conn: Connection<S>,
    work: Work<'_>,
) -> (Came, Connection<S>) {
    match work {
        Work::Delivery {
            words,
            said,
            answer,
        } => told(rt, conn, words, said, answer),
        Work::Opening { words } => opened(rt, conn, words),
        Work::Migration { words } => {
            let came = migrated(rt, &mut conn, words);
            (came, conn)
        }
    }
}
