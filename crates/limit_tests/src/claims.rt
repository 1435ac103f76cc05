//! What a test claims, and of what. Each claim is a call: the prover follows all that a test holds through each word of
//! a message that it writes.
use std::process::Abort;

/// The claim holds.
pub(crate) fn holds(rt: &impl Abort, claim: bool, what: &str) {
    assert!(rt; claim, "{what}");
}

/// The text is the one that is wanted.
pub(crate) fn is(rt: &impl Abort, found: &str, wanted: &str, what: &str) {
    assert_eq!(rt; found, wanted, "{what}");
}

/// The text is the one that is wanted. Texts here are large, so the message has the first line that differs alone.
pub(crate) fn is_long(rt: &impl Abort, found: &str, wanted: &str, what: &str) {
    let mut lines = found.lines();
    for line in wanted.lines() {
        is(rt, lines.next().unwrap_or("no line"), line, what);
    }
    holds(rt, found == wanted, what);
}
