//! Gates over a book in memory, and over the tables of a file in memory.
use gate_book::MemBook;
use gate_core::Gate;
use gate_live::LiveBook;
use gate_sql::SqlBook;
use gate_types::config::Config;
use sqlite::{Alter, Connection};
use std::process::Abort;

/// A gate of these settings over a book in memory.
pub(crate) fn gate_in_memory(rt: &(impl Abort + AllocGlobal), config: Config) -> Gate<MemBook> {
    let book = MemBook::new(rt.alloc(), &config).expect(rt, "a book");
    Gate::new(config, book)
}

/// A file with the tables of a new gate of these settings.
pub(crate) fn made<S: Alter + Drop>(
    rt: &(impl Abort + AllocGlobal),
    conn: Connection<S>,
    config: &Config,
) -> Connection<S> {
    let book = SqlBook::create(rt.alloc(), conn, config);
    book.ok().expect(rt, "tables").into_conn()
}

/// The gate of these settings in a file.
pub(crate) fn gate_in<S: Alter + Drop>(
    rt: &(impl Abort + AllocGlobal),
    conn: Connection<S>,
    config: Config,
) -> Gate<SqlBook<S>> {
    let book = SqlBook::open(rt.alloc(), conn, &config);
    Gate::new(config, book.ok().expect(rt, "a book"))
}

/// The connection that a gate was made over. A test ends a gate so: the end of a connection takes the prover less.
pub(crate) fn conn_of<S: Alter + Drop>(gate: Gate<SqlBook<S>>) -> Connection<S> {
    gate.into_book().into_conn()
}

/// The gate of these settings in a file, with what is live of it in memory, as the program holds it.
pub(crate) fn live_gate_in<S: Alter + Drop>(
    rt: &(impl Abort + AllocGlobal),
    conn: Connection<S>,
    config: Config,
) -> Gate<LiveBook<SqlBook<S>>> {
    let book = SqlBook::open(rt.alloc(), conn, &config);
    let mut live = LiveBook::new(rt.alloc(), book.ok().expect(rt, "a book"));
    live.fill(&config).expect(rt, "what is live");
    Gate::new(config, live)
}
