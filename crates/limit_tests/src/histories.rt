//! A history of 10,000 reports, and the 20,001 deliveries by which it came.
use crate::claims::{holds, is_long};
use crate::exchanges::{Exchanges, are_served};
use crate::feeds;
use crate::scenes::{Asked, Scene, Stored, in_memory, over_http, over_tables};
use crate::talks::tells;
use gate_archive::Archive;
use gate_core::Gate;
use gate_types::tap::Tap;
use std::alloc::{AllocError, Global};
use std::process::Abort;
use std::str::from_utf8;

/// How many reports there are.
const REPORTS: u32 = 10_000;

/// The change comes.
const COMES: &str =
    r#"> {"id":"0c000000-0000-4000-8000-000000000001","kind":"revision","change":101,"project":"lib","revision":1,"message":""}
< {"reply":"recorded"}
"#;

/// A change enters its queue, and is withdrawn, again and again: of revisions it has 9,999 at most.
fn talk(alloc: Global) -> Result<String, AllocError> {
    let mut talk = String::from_str(alloc, COMES)?;
    for n in 1..=REPORTS {
        write!(
            talk,
            "> {{\"id\":\"0a000000-0000-4000-8000-{n:012}\",\"kind\":\"approved\",\"change\":101,\"revision\":1}}\n\
             < {{\"order\":{n},\"reply\":\"queued\"}}\n\
             > {{\"id\":\"0b000000-0000-4000-8000-{n:012}\",\"kind\":\"withdrawn\",\"change\":101,\"revision\":1}}\n\
             < {{\"reply\":\"removed\"}}\n"
        )?;
    }
    Ok(talk)
}

/// The history with the reports of these places, and the number of all.
fn history(alloc: Global, first: u32, last: u32) -> Result<String, AllocError> {
    let mut text = String::from_str(alloc, "history core\n")?;
    for n in first..last.saturating_add(1) {
        write!(text, "{n:>6} {n:>6}       101    1 withdrawn       -\n")?;
    }
    text.push_str("end 10000\n")?;
    Ok(text)
}

/// The histories that are asked for: all of it, and, from a place on, at most 1,000 reports.
#[derive(Drop)]
struct Histories {
    all: String,
    from_1: String,
    from_1400: String,
    from_9500: String,
}

fn new_histories(alloc: Global) -> Result<Histories, AllocError> {
    Ok(Histories {
        all: history(alloc, 1, REPORTS)?,
        from_1: history(alloc, 1, 1_000)?,
        from_1400: history(alloc, 1_400, 2_399)?,
        from_9500: history(alloc, 9_500, REPORTS)?,
    })
}

/// The history, or what it is from a place on, is this text.
fn has_history<B: Archive>(
    rt: &(impl Abort + AllocGlobal),
    gate: &mut Gate<B>,
    from: Option<u64>,
    text: &str,
) {
    let mut w = Tap::new(Vec::new(rt.alloc()));
    let told = match from {
        Some(from) => gate.history_from("core", from, b"", &mut w),
        None => gate.history("core", b"", &mut w),
    };
    holds(rt, told.is_ok(), "a history");
    let written = w.into_inner();
    let written = from_utf8(written.as_slice()).ok().expect(rt, "a history");
    is_long(rt, written, text, "a history");
}

/// The gate has these histories behind its deliveries, and tells the deliveries again.
pub(crate) fn plays<B: Archive>(rt: &(impl Abort + AllocGlobal), gate: &mut Gate<B>) {
    let talk = talk(rt.alloc()).expect(rt, "memory");
    tells(rt, gate, "reports", talk.as_str());
    let histories = new_histories(rt.alloc()).expect(rt, "memory");
    has_history(rt, gate, None, histories.all.as_str());
    has_history(rt, gate, Some(1), histories.from_1.as_str());
    has_history(rt, gate, Some(1_400), histories.from_1400.as_str());
    has_history(rt, gate, Some(9_500), histories.from_9500.as_str());
    feeds::plays(rt, gate);
}

/// The same by requests.
fn exchanges(alloc: Global) -> Result<Exchanges, AllocError> {
    let talk = talk(alloc)?;
    let histories = new_histories(alloc)?;
    let mut exchanges = Exchanges::new(alloc);
    exchanges.talk(talk.as_str())?;
    exchanges.stream("/history/core", histories.all.as_str())?;
    exchanges.stream("/history/core/1", histories.from_1.as_str())?;
    exchanges.stream("/history/core/1400", histories.from_1400.as_str())?;
    exchanges.stream("/history/core/9500", histories.from_9500.as_str())?;
    feeds::ask(alloc, &mut exchanges)?;
    Ok(exchanges)
}

/// The gate has the same histories over HTTP.
pub(crate) fn serves<B: Archive>(rt: &(impl Abort + AllocGlobal), gate: &mut Gate<B>) {
    let exchanges = exchanges(rt.alloc()).expect(rt, "memory");
    are_served(rt, gate, &exchanges, "histories");
}

#[test]
fn all_10_000_reports_and_20_001_deliveries_are_told_in_memory(rt: HostRuntime) {
    in_memory(&rt, Scene::History);
}

#[test]
fn all_10_000_reports_and_20_001_deliveries_are_told_over_tables(rt: HostRuntime) {
    over_tables(&rt, Stored::Scene(Scene::History));
}

#[test]
fn all_10_000_reports_and_20_001_deliveries_are_told_over_http(rt: HostRuntime) {
    over_http(&rt, Asked::Scene(Scene::History));
}
