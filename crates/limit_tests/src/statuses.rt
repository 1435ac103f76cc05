//! The status of 1,000 items with 32 jobs each: about 500,000 bytes.
use crate::claims::is_long;
use crate::exchanges::{Exchanges, are_served};
use crate::scenes::{Asked, Scene, Stored, in_memory, over_http, over_tables};
use crate::settings::JOBS;
use crate::talks::{approvals, tells};
use gate_archive::Archive;
use gate_core::Gate;
use std::alloc::{AllocError, Global};
use std::process::Abort;

/// As many items as a queue may have.
const ITEMS: u32 = 1_000;

/// The status of all items.
fn status(alloc: Global) -> Result<String, AllocError> {
    let mut jobs = String::new(alloc);
    for job in 1..=JOBS {
        write!(jobs, " job-{job}=waiting")?;
    }
    let mut text = String::from_str(alloc, "queue core window 2 landed 0\n")?;
    write!(text, "     1         1    1      - ok     {jobs}\n")?;
    for n in 2..=ITEMS {
        let ahead = n.saturating_sub(1);
        write!(text, "{n:>6} {n:>9}    1 {ahead:>6} ok     {jobs}\n")?;
    }
    text.push_str("end\n")?;
    Ok(text)
}

/// The gate has this status behind its deliveries.
pub(crate) fn plays<B: Archive>(rt: &(impl Abort + AllocGlobal), gate: &mut Gate<B>) {
    let talk = approvals(rt.alloc(), ITEMS).expect(rt, "memory");
    tells(rt, gate, "items", talk.as_str());
    let text = status(rt.alloc()).expect(rt, "memory");
    let shown = gate.status(rt.alloc()).expect(rt, "the status");
    is_long(rt, shown.as_str(), text.as_str(), "the status");
}

/// The same by requests.
fn exchanges(alloc: Global) -> Result<Exchanges, AllocError> {
    let talk = approvals(alloc, ITEMS)?;
    let status = status(alloc)?;
    let mut exchanges = Exchanges::new(alloc);
    exchanges.talk(talk.as_str())?;
    exchanges.get("/status", "text/plain", status.as_str())?;
    Ok(exchanges)
}

/// The gate has the same status over HTTP.
pub(crate) fn serves<B: Archive>(rt: &(impl Abort + AllocGlobal), gate: &mut Gate<B>) {
    let exchanges = exchanges(rt.alloc()).expect(rt, "memory");
    are_served(rt, gate, &exchanges, "a status");
}

#[test]
fn a_status_of_1_000_items_is_whole_in_memory(rt: HostRuntime) {
    in_memory(&rt, Scene::Status);
}

#[test]
fn a_status_of_1_000_items_is_whole_over_tables(rt: HostRuntime) {
    over_tables(&rt, Stored::Scene(Scene::Status));
}

#[test]
fn a_status_of_1_000_items_is_whole_over_http(rt: HostRuntime) {
    over_http(&rt, Asked::Scene(Scene::Status));
}
