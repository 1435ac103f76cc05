//! What each error prints.
use crate::claims::is;
use gate_archive::FeedFault;
use gate_book::{BookFault, HistoryFault};
use gate_config::ConfigFault;
use gate_core::ReplayFault;
use gate_http::{NotListening, RequestFault, StreamFault};
use gate_kept_settings::TextFault;
use gate_types::deliveries::Refusal;
use gate_types::open_fault::OpenFault;
use gate_types::tap::Failed;
use std::error::Error;
use std::process::Abort;

fn prints(rt: &(impl Abort + AllocGlobal), error: &impl Error, wanted: &str) {
    let printed = error.to_string(rt.alloc()).expect(rt, "memory");
    is(rt, printed.as_str(), wanted, "an error");
}

fn each_prints<E: Error>(rt: &(impl Abort + AllocGlobal), rows: &[(E, &str)]) {
    for (error, wanted) in rows {
        prints(rt, error, wanted);
    }
}

const OPEN_FAULTS: &[(OpenFault, &str)] = &[
    (OpenFault::WrongFile, "O1 wrong-file"),
    (OpenFault::OtherSchema, "O2 other-schema"),
    (OpenFault::OtherSettings, "O3 other-settings"),
    (OpenFault::Unavailable, "O4 unavailable"),
];

const TEXT_FAULTS: &[(TextFault, &str)] = &[
    (TextFault::NotSettings, "the text is of no settings"),
    (TextFault::NoMemory, "memory was refused"),
];

const BOOK_FAULTS: &[(BookFault, &str)] = &[
    (BookFault::NoMemory, "memory was refused"),
    (BookFault::Store, "the store failed"),
    (
        BookFault::Damaged,
        "a row isn't of its form: somebody else wrote the store",
    ),
];

const HISTORY_FAULTS: &[(HistoryFault, &str)] = &[
    (HistoryFault::NoQueue, "no queue has the name"),
    (
        HistoryFault::Unavailable,
        "the store failed or memory was refused, and nothing was written",
    ),
    (
        HistoryFault::Broken,
        "the store failed or memory was refused, and a beginning was written",
    ),
    (
        HistoryFault::Write,
        "the writer failed, and a beginning was written",
    ),
];

const FEED_FAULTS: &[(FeedFault, &str)] = &[
    (FeedFault::NoDelivery, "no accepted delivery has the id"),
    (
        FeedFault::Unavailable,
        "the store failed or memory was refused, and nothing was written",
    ),
    (
        FeedFault::Broken,
        "the store failed or memory was refused, and a beginning was written",
    ),
    (
        FeedFault::Write,
        "the writer failed, and a beginning was written",
    ),
];

const STREAM_FAULTS: &[(StreamFault, &str)] = &[
    (
        StreamFault::Missing,
        "there is no such queue, or no such delivery",
    ),
    (
        StreamFault::Unavailable,
        "the store failed or memory was refused, and nothing was written",
    ),
    (
        StreamFault::Broken,
        "the store failed or memory was refused, and a beginning was written",
    ),
    (
        StreamFault::Write,
        "the writer failed, and a beginning was written",
    ),
];

const REPLAY_FAULTS: &[(ReplayFault, &str)] = &[
    (ReplayFault::Read, "the reader failed"),
    (ReplayFault::Write, "the writer failed"),
    (
        ReplayFault::NoMemory,
        "memory was refused before anything was read",
    ),
];

const REQUEST_FAULTS: &[(RequestFault, &str)] = &[
    (RequestFault::Read, "I1 read"),
    (RequestFault::Write, "I2 write"),
    (RequestFault::NoMemory, "I3 no-memory"),
    (RequestFault::Store, "I7 store"),
];

#[test]
fn errors_of_books_and_settings_print_their_texts(rt: HostRuntime) {
    prints(&rt, &Refusal::UnknownChange, "unknown-change");
    prints(&rt, &ConfigFault::UnknownQueue, "C7 unknown-queue");
    prints(&rt, &ConfigFault::NoMemory, "C11 no-memory");
    each_prints(&rt, OPEN_FAULTS);
    each_prints(&rt, TEXT_FAULTS);
    each_prints(&rt, BOOK_FAULTS);
}

#[test]
fn errors_of_readers_and_writers_print_their_texts(rt: HostRuntime) {
    prints(&rt, &Failed, "the reader or writer failed");
    prints(
        &rt,
        &NotListening,
        "the listener failed to accept a connection",
    );
    each_prints(&rt, HISTORY_FAULTS);
    each_prints(&rt, FEED_FAULTS);
    each_prints(&rt, STREAM_FAULTS);
    each_prints(&rt, REPLAY_FAULTS);
    each_prints(&rt, REQUEST_FAULTS);
}
