//! What clients ask of a gate at a size that no other test has, and what they get: of one over a book in memory, and of
//! one over tables with what is live in memory, as the program's is. `bench/sizes.py` works out by the rules what they
//! are to get.
mod crowds;
mod longest;
mod messages;
mod needed;
mod needs;
mod rebuilt;
mod running;

use crate::exchanges::{Exchanges, are_served};
use crate::gates::{gate_in_memory, live_gate_in, made};
use crate::settings::{config, unbounded_text};
use sqlite::{Alter, Connection};
use std::alloc::{AllocError, Global};
use std::process::Abort;

/// What clients send in turn and get, under these settings. The tables were made under those before.
#[derive(Drop)]
pub(crate) struct Sized {
    pub(crate) before: String,
    pub(crate) settings: String,
    pub(crate) exchanges: Exchanges,
}

fn served_in_tables<S: Alter + Drop>(
    rt: &(impl Abort + AllocGlobal),
    conn: Connection<S>,
    sized: &Sized,
    title: &str,
) {
    let conn = made(rt, conn, &config(rt, sized.before.as_str()));
    let mut gate = live_gate_in(rt, conn, config(rt, sized.settings.as_str()));
    are_served(rt, &mut gate, &sized.exchanges, title);
    let _ = gate.into_book().into_book().into_conn();
}

/// Both gates answer as they are to.
pub(crate) fn are_answered(
    rt: &(impl Abort + AllocGlobal),
    sized: Result<Sized, AllocError>,
    title: &str,
) {
    let sized = sized.expect(rt, title);
    let mut gate = gate_in_memory(rt, config(rt, sized.settings.as_str()));
    are_served(rt, &mut gate, &sized.exchanges, title);
    let conn = Connection::open_in_memory(rt.alloc()).ok();
    served_in_tables(rt, conn.expect(rt, title), &sized, title);
}

/// What is told under these settings, and gets its answers. Pages may follow.
pub(crate) fn told(alloc: Global, settings: &str, talk: &str) -> Result<Sized, AllocError> {
    let mut exchanges = Exchanges::new(alloc);
    exchanges.talk(talk)?;
    Ok(Sized {
        before: String::from_str(alloc, settings)?,
        settings: String::from_str(alloc, settings)?,
        exchanges,
    })
}

/// What is told where the queues have no bound, and the page at a path then.
pub(crate) fn unbounded(
    alloc: Global,
    talk: &str,
    path: &str,
    page: &str,
) -> Result<Sized, AllocError> {
    let mut sized = told(alloc, unbounded_text(alloc)?.as_str(), talk)?;
    sized.exchanges.get(path, "application/json", page)?;
    Ok(sized)
}
