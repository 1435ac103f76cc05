//! What all tests share: gates over a file's tables, and what they are told. Settings are said by the words of
//! `settings`.
use crate::claims::is;
use crate::settings::config;
use gate_book::Book;
use gate_core::{Gate, ReplayFault, replay};
use gate_live::LiveBook;
use gate_sql::SqlBook;
use gate_types::open_fault::OpenFault;
use gate_types::tap::Tap;
use sqlite::{Alter, Connection};
use std::alloc::Global;
use std::process::Abort;

/// The settings of most files.
pub(crate) const SETTINGS: &str = "core 2 1 and web";

/// A gate over a file, as the program makes it.
pub(crate) type FileGate<S> = Gate<LiveBook<SqlBook<S>>>;

/// Why there is no book over a file's tables, if there is none, and the file's connection.
fn parts<S: Alter + Drop>(
    made: Result<SqlBook<S>, (OpenFault, Connection<S>)>,
) -> (Option<OpenFault>, Connection<S>) {
    match made {
        Ok(book) => (None, book.into_conn()),
        Err((fault, conn)) => (Some(fault), conn),
    }
}

/// What came of a file, as a line says it.
pub(crate) fn outcome(fault: Option<OpenFault>) -> &'static str {
    match fault {
        None => "done",
        Some(OpenFault::WrongFile) => "WrongFile",
        Some(OpenFault::OtherSchema) => "OtherSchema",
        Some(OpenFault::OtherSettings) => "OtherSettings",
        Some(OpenFault::Unavailable) => "Unavailable",
    }
}

/// Makes the tables of a new gate in a file: why they aren't made, if they aren't, and the connection.
pub(crate) fn created_under<S: Alter + Drop>(
    rt: &(impl Abort + AllocGlobal),
    conn: Connection<S>,
    words: &str,
) -> (Option<OpenFault>, Connection<S>) {
    let config = config(rt, words);
    parts(SqlBook::create(rt.alloc(), conn, &config))
}

/// Opens a file with these settings: why it isn't opened, if it isn't, and the connection.
pub(crate) fn opened_under<S: Alter + Drop>(
    rt: &(impl Abort + AllocGlobal),
    conn: Connection<S>,
    words: &str,
) -> (Option<OpenFault>, Connection<S>) {
    let config = config(rt, words);
    parts(SqlBook::open(rt.alloc(), conn, &config))
}

/// A file with the tables of a new gate under these settings.
pub(crate) fn made_under<S: Alter + Drop>(
    rt: &(impl Abort + AllocGlobal),
    conn: Connection<S>,
    words: &str,
) -> Connection<S> {
    let (fault, conn) = created_under(rt, conn, words);
    assert!(rt; fault.is_none(), "no tables are made");
    conn
}

/// A file with the tables of a new gate.
pub(crate) fn new_file<S: Alter + Drop>(
    rt: &(impl Abort + AllocGlobal),
    conn: Connection<S>,
) -> Connection<S> {
    made_under(rt, conn, SETTINGS)
}

/// The gate in a file under these settings, or why there is none, with the connection.
pub(crate) fn gate_under<S: Alter + Drop>(
    rt: &(impl Abort + AllocGlobal),
    conn: Connection<S>,
    words: &str,
) -> Result<FileGate<S>, (OpenFault, Connection<S>)> {
    let config = config(rt, words);
    let book = SqlBook::open(rt.alloc(), conn, &config)?;
    let mut live = LiveBook::new(rt.alloc(), book);
    let _filled = live.fill(&config);
    Ok(Gate::new(config, live))
}

/// The gate in a file.
pub(crate) fn gate_in<S: Alter + Drop>(
    rt: &(impl Abort + AllocGlobal),
    conn: Connection<S>,
) -> FileGate<S> {
    gate_under(rt, conn, SETTINGS)
        .ok()
        .expect(rt, "a gate in the file")
}

/// The connection that a gate was made over. A test ends a gate so: the end of a connection takes the prover less.
pub(crate) fn conn_of<S: Alter + Drop>(gate: FileGate<S>) -> Connection<S> {
    gate.into_book().into_book().into_conn()
}

/// What a gate writes for lines.
fn said<B: Book>(alloc: Global, gate: &mut Gate<B>, lines: &str) -> Result<Vec<u8>, ReplayFault> {
    let mut r = Tap::new(lines.as_bytes());
    let mut w = Tap::new(Vec::new(alloc));
    let _count = replay(alloc, gate, &mut r, &mut w)?;
    Ok(w.into_inner())
}

/// What a gate over a file writes for lines; and the connection.
pub(crate) fn said_over<S: Alter + Drop>(
    alloc: Global,
    mut gate: FileGate<S>,
    lines: &str,
) -> (Result<Vec<u8>, ReplayFault>, Connection<S>) {
    let written = said(alloc, &mut gate, lines);
    (written, conn_of(gate))
}

/// The lines get the answers, and leave the status.
fn tells<B: Book>(
    rt: &(impl Abort + AllocGlobal),
    gate: &mut Gate<B>,
    lines: &str,
    answers: &str,
    status: &str,
) {
    let written = said(rt.alloc(), gate, lines).expect(rt, "answers");
    assert!(rt; written.as_slice() == answers.as_bytes());
    let text = gate.status(rt.alloc()).expect(rt, "a status");
    is(rt, text.as_str(), status, "the status");
}

/// The lines get the answers of a gate over a file, and leave the status; the connection is given back.
pub(crate) fn tells_over<S: Alter + Drop>(
    rt: &(impl Abort + AllocGlobal),
    mut gate: FileGate<S>,
    lines: &str,
    answers: &str,
    status: &str,
) -> Connection<S> {
    tells(rt, &mut gate, lines, answers, status);
    conn_of(gate)
}
