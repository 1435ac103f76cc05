//! Talks: lines behind `> ` are told to a gate, and lines behind `< ` are its answers.
use crate::claims::{holds, is_long};
use gate_book::Book;
use gate_core::{Gate, replay};
use gate_types::tap::Tap;
use std::alloc::{AllocError, Global};
use std::process::Abort;
use std::str::from_utf8;

/// So many changes of the project `lib` come, and each enters its queue.
pub(crate) fn approvals(alloc: Global, changes: u32) -> Result<String, AllocError> {
    let mut talk = String::new(alloc);
    for n in 1..changes.saturating_add(1) {
        write!(
            talk,
            "> {{\"id\":\"0a000000-0000-4000-8000-{n:012}\",\"kind\":\"revision\",\"change\":{n},\"project\":\"lib\",\"revision\":1,\"message\":\"\"}}\n\
             < {{\"reply\":\"recorded\"}}\n\
             > {{\"id\":\"0b000000-0000-4000-8000-{n:012}\",\"kind\":\"approved\",\"change\":{n},\"revision\":1}}\n\
             < {{\"order\":{n},\"reply\":\"queued\"}}\n"
        )?;
    }
    Ok(talk)
}

/// A change of a project comes, with this message.
pub(crate) fn push_change(
    talk: &mut String,
    n: u32,
    project: &str,
    message: &str,
) -> Result<(), AllocError> {
    write!(
        talk,
        "> {{\"id\":\"0a000000-0000-4000-8000-{n:012}\",\"kind\":\"revision\",\"change\":{n},\"project\":\"{project}\",\"revision\":1,\"message\":\"{message}\"}}\n\
         < {{\"reply\":\"recorded\"}}\n"
    )
}

/// A change is approved, and enters its queue under this order number.
pub(crate) fn push_queued(talk: &mut String, n: u32, order: u32) -> Result<(), AllocError> {
    write!(
        talk,
        "> {{\"id\":\"0b000000-0000-4000-8000-{n:012}\",\"kind\":\"approved\",\"change\":{n},\"revision\":1}}\n\
         < {{\"order\":{order},\"reply\":\"queued\"}}\n"
    )
}

/// A change is approved, and waits.
pub(crate) fn push_waiting(talk: &mut String, n: u32) -> Result<(), AllocError> {
    write!(
        talk,
        "> {{\"id\":\"0b000000-0000-4000-8000-{n:012}\",\"kind\":\"approved\",\"change\":{n},\"revision\":1}}\n\
         < {{\"reply\":\"waiting\"}}\n"
    )
}

/// What a worker is to build: this job of a change, on those from the first to the last before it.
#[derive(Clone, Copy)]
pub(crate) struct Given<'a> {
    pub(crate) build: u32,
    pub(crate) first: u32,
    pub(crate) change: u32,
    pub(crate) job: &'a str,
    pub(crate) queue: &'a str,
}

/// A worker asks, and is given this build.
pub(crate) fn push_take(talk: &mut String, given: Given<'_>) -> Result<(), AllocError> {
    let Given {
        build,
        first,
        change,
        job,
        queue,
    } = given;
    write!(
        talk,
        "> {{\"id\":\"0c000000-0000-4000-8000-{build:012}\",\"kind\":\"take\",\"worker\":\"w1\"}}\n\
         < {{\"after\":0,\"ahead\":["
    )?;
    for n in first..change {
        talk.push_str(if n == first { "" } else { "," })?;
        write!(talk, "[{n},1]")?;
    }
    write!(
        talk,
        "],\"build\":{build},\"change\":{change},\"job\":\"{job}\",\"queue\":\"{queue}\",\"reply\":\"build\",\"revision\":1}}\n"
    )
}

/// A build fails.
pub(crate) fn push_failure(talk: &mut String, build: u32) -> Result<(), AllocError> {
    write!(
        talk,
        "> {{\"id\":\"0d000000-0000-4000-8000-{build:012}\",\"kind\":\"result\",\"build\":{build},\"outcome\":\"failure\"}}\n\
         < {{\"reply\":\"noted\"}}\n"
    )
}

/// The lines behind this mark.
fn marked(alloc: Global, talk: &str, mark: &str) -> Result<String, AllocError> {
    let mut lines = String::new(alloc);
    for line in talk.lines() {
        if let Some(words) = line.strip_prefix(mark) {
            lines.push_str(words)?;
            lines.push('\n')?;
        }
    }
    Ok(lines)
}

/// What is told gets its answers.
pub(crate) fn tells<B: Book>(
    rt: &(impl Abort + AllocGlobal),
    gate: &mut Gate<B>,
    title: &str,
    talk: &str,
) {
    let told = marked(rt.alloc(), talk, "> ").expect(rt, "memory");
    let answers = marked(rt.alloc(), talk, "< ").expect(rt, "memory");
    let mut r = Tap::new(told.as_bytes());
    let mut w = Tap::new(Vec::new(rt.alloc()));
    let count = replay(rt.alloc(), gate, &mut r, &mut w);
    holds(rt, count.is_ok(), title);
    let written = w.into_inner();
    let written = from_utf8(written.as_slice()).ok().expect(rt, title);
    is_long(rt, written, answers.as_str(), title);
}
