//! The 20,001 deliveries behind a history of 10,000 reports, as they are listed: at most 1,000 in one answer, and all
//! of them to a program.
use crate::claims::{holds, is_long};
use crate::exchanges::Exchanges;
use gate_archive::{Archive, id_of};
use gate_core::Gate;
use gate_types::tap::Tap;
use std::alloc::{AllocError, Global};
use std::process::Abort;
use std::str::from_utf8;

/// The line of the change.
const COMES: &str =
    "{\"change\":101,\"id\":\"0c000000000040008000000000000001\",\"kind\":\"revision\",\"message\":\"\",\"project\":\"lib\",\"revision\":1}\n";

/// The line of an approval.
fn push_approval(text: &mut String, n: u32) -> Result<(), AllocError> {
    write!(
        text,
        "{{\"change\":101,\"id\":\"0a000000000040008000{n:012}\",\"kind\":\"approved\",\"revision\":1}}\n"
    )
}

/// The lines of these approvals, each with its withdrawal.
fn push_told(text: &mut String, first: u32, last: u32) -> Result<(), AllocError> {
    for n in first..last.saturating_add(1) {
        push_approval(text, n)?;
        write!(
            text,
            "{{\"change\":101,\"id\":\"0b000000000040008000{n:012}\",\"kind\":\"withdrawn\",\"revision\":1}}\n"
        )?;
    }
    Ok(())
}

/// What is told from the first delivery on, from the 1,002nd on, from the 19,502nd on, and all.
#[derive(Drop)]
struct Feeds {
    first: String,
    second: String,
    last: String,
    all: String,
}

/// The ids behind which the second and the last of these answers begin.
const SECOND: &str = "0b000000-0000-4000-8000-000000000500";

const LAST: &str = "0b000000-0000-4000-8000-000000009750";

fn new_feeds(alloc: Global) -> Result<Feeds, AllocError> {
    let mut first = String::from_str(alloc, COMES)?;
    push_told(&mut first, 1, 499)?;
    push_approval(&mut first, 500)?;
    first.push_str("end 1000\n")?;
    let mut second = String::new(alloc);
    push_told(&mut second, 501, 1_000)?;
    second.push_str("end 1000\n")?;
    let mut last = String::new(alloc);
    push_told(&mut last, 9_751, 10_000)?;
    last.push_str("end 500\n")?;
    let mut all = String::from_str(alloc, COMES)?;
    push_told(&mut all, 1, 10_000)?;
    Ok(Feeds {
        first,
        second,
        last,
        all,
    })
}

/// The deliveries behind that of an id, or from the first on where there is no id, are told by this text.
fn has_feed<B: Archive>(
    rt: &(impl Abort + AllocGlobal),
    gate: &mut Gate<B>,
    after: &str,
    text: &str,
) {
    let mut w = Tap::new(Vec::new(rt.alloc()));
    let told = gate.feed(rt.alloc(), id_of(after), b"", &mut w);
    holds(rt, told.is_ok(), "deliveries");
    let written = w.into_inner();
    let written = from_utf8(written.as_slice()).ok().expect(rt, "deliveries");
    is_long(rt, written, text, "deliveries");
}

/// All deliveries are told by these lines.
fn has_all<B: Archive>(rt: &(impl Abort + AllocGlobal), gate: &mut Gate<B>, text: &str) {
    let mut w = Tap::new(Vec::new(rt.alloc()));
    let told = gate.deliveries(None, &mut w);
    holds(rt, matches!(told, Ok(20_001)), "all deliveries");
    let written = w.into_inner();
    let written = from_utf8(written.as_slice())
        .ok()
        .expect(rt, "all deliveries");
    is_long(rt, written, text, "all deliveries");
}

/// The gate tells its deliveries again.
pub(crate) fn plays<B: Archive>(rt: &(impl Abort + AllocGlobal), gate: &mut Gate<B>) {
    let feeds = new_feeds(rt.alloc()).expect(rt, "memory");
    has_feed(rt, gate, "", feeds.first.as_str());
    has_feed(rt, gate, SECOND, feeds.second.as_str());
    has_feed(rt, gate, LAST, feeds.last.as_str());
    has_all(rt, gate, feeds.all.as_str());
}

/// The same by requests.
pub(crate) fn ask(alloc: Global, exchanges: &mut Exchanges) -> Result<(), AllocError> {
    let feeds = new_feeds(alloc)?;
    exchanges.stream("/deliveries", feeds.first.as_str())?;
    let path = format!(in alloc; "/deliveries/{SECOND}")?;
    exchanges.stream(path.as_str(), feeds.second.as_str())?;
    let path = format!(in alloc; "/deliveries/{LAST}")?;
    exchanges.stream(path.as_str(), feeds.last.as_str())?;
    Ok(())
}
