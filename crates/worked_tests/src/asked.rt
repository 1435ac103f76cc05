//! What a gate that runs is asked, and shows, beside its status: parts of a scene, as `talks` says.
use crate::claims::{holds, is};
use crate::streams::Narrow;
use gate_archive::{Archive, FeedFault, id_of};
use gate_core::Gate;
use gate_types::deliveries::Refusal;
use gate_types::numbers::{ChangeNo, Serial};
use gate_types::tap::Tap;
use std::alloc::Global;
use std::process::Abort;
use std::str::from_utf8;

/// More bytes than any answer here has.
const WIDE: usize = 100_000;

/// A writer that takes so many bytes.
pub(crate) fn narrow(alloc: Global, left: usize) -> Narrow {
    Narrow {
        taken: Vec::new(alloc),
        left,
        silent: false,
    }
}

/// The change has this text, or is none that is known.
pub(crate) fn has_change<B: Archive>(
    rt: &(impl Abort + AllocGlobal),
    gate: &mut Gate<B>,
    title: &str,
    number: &str,
    text: &str,
) {
    let number = number.parse::<u64>().ok().expect(rt, number);
    let number = ChangeNo::new(number).expect(rt, title);
    match gate.change(rt.alloc(), number) {
        Ok(change) => is(rt, change.as_str(), text, title),
        Err(refusal) => {
            holds(rt, refusal == Refusal::UnknownChange, title);
            is(rt, "none", text, title);
        }
    }
}

/// The item of the serial has this text, or there is none.
pub(crate) fn has_item<B: Archive>(
    rt: &(impl Abort + AllocGlobal),
    gate: &mut Gate<B>,
    title: &str,
    number: &str,
    text: &str,
) {
    let number = number.parse::<u64>().ok().expect(rt, number);
    let serial = Serial::new(number).expect(rt, title);
    match gate.item(rt.alloc(), serial).expect(rt, title) {
        Some(item) => is(rt, item.as_str(), text, title),
        None => is(rt, "none", text, title),
    }
}

/// These builds run.
pub(crate) fn has_running<B: Archive>(
    rt: &(impl Abort + AllocGlobal),
    gate: &mut Gate<B>,
    title: &str,
    text: &str,
) {
    let running = gate.running(rt.alloc()).expect(rt, title);
    is(rt, running.as_str(), text, title);
}

/// The deliveries behind that of an id, or all, are these lines, or their beginning is what a writer takes, or there is
/// no delivery of that id.
pub(crate) fn has_deliveries<B: Archive>(
    rt: &(impl Abort + AllocGlobal),
    gate: &mut Gate<B>,
    title: &str,
    words: &str,
    text: &str,
) {
    let (words, room) = match words.split_once("up to byte ") {
        Some((words, room)) => (
            words.trim_end(),
            room.parse::<usize>().ok().expect(rt, words),
        ),
        None => (words, WIDE),
    };
    let after = match words.strip_prefix("behind ") {
        Some(id) => Some(id_of(id).expect(rt, id)),
        None => None,
    };
    let mut w = Tap::new(narrow(rt.alloc(), room));
    let answered = gate.feed(rt.alloc(), after, b"", &mut w);
    let Narrow { taken, .. } = w.into_inner();
    let taken = from_utf8(taken.as_slice()).ok().expect(rt, title);
    match answered {
        Ok(()) => is(rt, taken.strip_suffix('\n').unwrap_or("\n"), text, title),
        Err(FeedFault::Write) => is(rt, taken, text.get(..room).unwrap_or("\n"), title),
        Err(fault) => {
            holds(rt, fault == FeedFault::NoDelivery, title);
            is(rt, taken, "", title);
            is(rt, "none", text, title);
        }
    }
}
