//! What the next words of a line say. Words that say no such thing end the test.
use gate_types::names::{Name, PathName};
use gate_types::numbers::{BuildNo, ChangeNo, Revision, Serial};
use std::process::Abort;
use std::str::SplitWhitespace;

pub(crate) fn word<'a>(rt: &impl Abort, words: &mut SplitWhitespace<'a>) -> &'a str {
    words.next().expect(rt, "a word")
}

pub(crate) fn number(rt: &impl Abort, words: &mut SplitWhitespace) -> u64 {
    let word = word(rt, words);
    word.parse::<u64>().expect(rt, word)
}

pub(crate) fn size(rt: &impl Abort, words: &mut SplitWhitespace) -> u32 {
    let word = word(rt, words);
    word.parse::<u32>().expect(rt, word)
}

pub(crate) fn serial(rt: &impl Abort, words: &mut SplitWhitespace) -> Serial {
    Serial::new(number(rt, words)).expect(rt, "a serial")
}

pub(crate) fn change(rt: &impl Abort, words: &mut SplitWhitespace) -> ChangeNo {
    ChangeNo::new(number(rt, words)).expect(rt, "a change")
}

pub(crate) fn build(rt: &impl Abort, words: &mut SplitWhitespace) -> BuildNo {
    BuildNo::new(number(rt, words)).expect(rt, "a build")
}

/// That of each change.
pub(crate) fn revision(rt: &impl Abort) -> Revision {
    Revision::new(1).expect(rt, "a revision")
}

pub(crate) fn name(rt: &(impl Abort + AllocGlobal), text: &str) -> Name {
    let text = String::from_str(rt.alloc(), text).expect(rt, "memory");
    Name::new(text).expect(rt, "a name")
}

pub(crate) fn path_name(rt: &(impl Abort + AllocGlobal), text: &str) -> PathName {
    let text = String::from_str(rt.alloc(), text).expect(rt, "memory");
    PathName::new(text).expect(rt, "a path name")
}
