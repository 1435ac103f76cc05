//! What a test claims, and of what. A claim is a call, since all that a test holds beside a message that is written is
//! to be proved unharmed by each of its words.
use std::process::Abort;

/// The claim holds.
pub(crate) fn holds(rt: &impl Abort, claim: bool, what: &str) {
    assert!(rt; claim, "{what}");
}

/// The text is the one that is wanted.
pub(crate) fn is(rt: &impl Abort, found: &str, wanted: &str, what: &str) {
    assert_eq!(rt; found, wanted, "{what}");
}

/// The answer in a scene is the one that is wanted.
pub(crate) fn answers(rt: &impl Abort, found: &str, wanted: &str, title: &str, asked: &str) {
    assert_eq!(rt; found, wanted, "{title}: {asked}");
}
