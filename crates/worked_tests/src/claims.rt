//! What a test claims, and of what. Each claim is a call, since what a test holds beside a message that is written is
//! to be proved unharmed by each of its words.
use std::process::Abort;

/// The claim holds.
pub(crate) fn holds(rt: &impl Abort, claim: bool, what: &str) {
    assert!(rt; claim, "{what}");
}

/// The text is the one that is wanted.
pub(crate) fn is(rt: &impl Abort, found: &str, wanted: &str, what: &str) {
    assert_eq!(rt; found, wanted, "{what}");
}

/// The claim holds at a number of something, as `after 7 bytes`.
pub(crate) fn holds_at(rt: &impl Abort, claim: bool, number: usize, what: &str) {
    assert!(rt; claim, "{what} {number}");
}

/// The text at a number of something is the one that is wanted.
pub(crate) fn is_at(rt: &impl Abort, found: &str, wanted: &str, number: usize, what: &str) {
    assert_eq!(rt; found, wanted, "{what} {number}");
}

/// Runs ended in both ways.
pub(crate) fn both_came(rt: &impl Abort, (some, others): (u32, u32), what: &str) {
    assert!(rt; some > 0 && others > 0, "{what}: {some} and {others}");
}
