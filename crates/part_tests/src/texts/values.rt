//! Numbers, names, sequences and entries, as they are made and given back.
use crate::claims::is;
use gate_types::deliveries::Ending;
use gate_types::entries::{push_entry, separator};
use gate_types::names::{Base, Message, Name, PathName, Text};
use gate_types::numbers::{BuildNo, ChangeNo, Revision, Serial};
use gate_types::records::{Entry, Outcome};
use gate_types::sequence::Sequence;
use std::alloc::Global;
use std::process::Abort;

/// A number that is given back, if it is in its range.
fn ranged(kind: &str, number: u64) -> Option<u64> {
    match kind {
        "change" => Some(ChangeNo::new(number)?.get()),
        "revision" => Some(Revision::new(number)?.get()),
        "serial" => Some(Serial::new(number)?.get()),
        "build" => Some(BuildNo::new(number)?.get()),
        _ => None,
    }
}

/// Kinds, each with a number in its range and one outside.
const RANGES: &[(&str, u64, u64)] = &[
    ("change", 999_999_999, 1_000_000_000),
    ("revision", 9_999, 10_000),
    ("serial", 1_000_000_000_000_000, 0),
    ("build", 1, 1_000_000_000_000_001),
];

#[test]
fn numbers_have_ranges(rt: HostRuntime) {
    for (kind, inside, outside) in RANGES {
        assert_eq!(rt; ranged(kind, *inside), Some(*inside), "{kind}");
        assert_eq!(rt; ranged(kind, *outside), None, "{kind}");
    }
}

fn owned(rt: &(impl Abort + AllocGlobal), text: &str) -> String {
    String::from_str(rt.alloc(), text).expect(rt, "memory")
}

/// A text as it is given back, and as its copy is where it has one, if the text is of its kind.
fn named(rt: &(impl Abort + AllocGlobal), kind: &str, text: &str) -> Option<String> {
    let text = owned(rt, text);
    match kind {
        "name" => {
            let name = Name::new(text)?;
            let copy = name.copy().expect(rt, "memory");
            Some(both(rt, name.as_str(), copy.as_str()))
        }
        "path" => {
            let path = PathName::new(text)?;
            let copy = path.copy().expect(rt, "memory");
            Some(both(rt, path.as_str(), copy.as_str()))
        }
        "base" => {
            let base = Base::new(text)?;
            Some(owned(rt, base.as_str()))
        }
        "message" => {
            let message = Message::new(text)?;
            Some(owned(rt, message.as_str()))
        }
        _ => {
            let text = Text::new(text);
            let copy = text.copy().expect(rt, "memory").into_string();
            Some(both(rt, text.as_str(), copy.as_str()))
        }
    }
}

fn both(rt: &(impl Abort + AllocGlobal), text: &str, copy: &str) -> String {
    format!(in rt.alloc(); "{text}, {copy}").expect(rt, "memory")
}

/// Kinds, each with a text and what is given back of it.
const NAMES: &[(&str, &str, &str)] = &[
    ("name", "core-1.x_y", "core-1.x_y, core-1.x_y"),
    ("name", "team/core", "none"),
    ("path", "team/lib", "team/lib, team/lib"),
    ("path", "/lib", "none"),
    ("base", "https://forge/c/", "https://forge/c/"),
    ("base", "a b", "none"),
    ("message", "Mend\nit", "Mend\nit"),
    ("text", "any", "any, any"),
];

#[test]
fn names_are_given_back(rt: HostRuntime) {
    for (kind, text, wanted) in NAMES {
        let found = named(&rt, kind, text).unwrap_or(owned(&rt, "none"));
        is(&rt, found.as_str(), wanted, text);
    }
}

#[test]
fn a_sequence_keeps_its_order(rt: HostRuntime) {
    let mut numbers = Sequence::new(rt.alloc());
    numbers.push(2).expect(&rt, "memory");
    numbers.push(1).expect(&rt, "memory");
    assert!(rt; numbers.as_slice() == [2, 1].as_slice());
    let again = Sequence::from_vec(numbers.into_vec());
    assert!(rt; again.as_slice() == [2, 1].as_slice());
}

/// An entry twice, each behind what stands before it.
fn twice(alloc: Global) -> Option<String> {
    let entry = Entry {
        change: ChangeNo::new(101)?,
        revision: Revision::new(2)?,
    };
    let mut text = String::from_str(alloc, "").ok()?;
    push_entry(alloc, &mut text, separator(0), entry).ok()?;
    push_entry(alloc, &mut text, separator(1), entry).ok()?;
    Some(text)
}

#[test]
fn entries_have_a_comma_between(rt: HostRuntime) {
    let text = twice(rt.alloc()).unwrap_or(owned(&rt, "none"));
    is(&rt, text.as_str(), "[101,2],[101,2]", "entries");
}

#[test]
fn outcomes_are_those_reported(rt: HostRuntime) {
    assert!(rt; Outcome::from(Ending::Success) == Outcome::Success);
    assert!(rt; Outcome::from(Ending::Failure) == Outcome::Failure);
    assert!(rt; Outcome::from(Ending::Lost) == Outcome::Lost);
}
