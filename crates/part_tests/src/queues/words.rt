//! What the next words of a line say. Words that say no such thing end the test.
use gate_types::config::{Job, Pace, WindowRule};
use gate_types::names::Name;
use gate_types::numbers::{BuildNo, ChangeNo, Revision, Serial};
use gate_types::records::{Build, Entry, Landing, Need, Outcome};
use gate_types::sequence::Sequence;
use std::process::Abort;
use std::str::SplitWhitespace;

pub(crate) fn word<'a>(rt: &impl Abort, words: &mut SplitWhitespace<'a>) -> &'a str {
    words.next().expect(rt, "a word")
}

pub(crate) fn size(rt: &impl Abort, words: &mut SplitWhitespace) -> u32 {
    word(rt, words).parse::<u32>().expect(rt, "a size")
}

pub(crate) fn number(rt: &impl Abort, word: &str) -> u64 {
    word.parse::<u64>().expect(rt, word)
}

pub(crate) fn serial(rt: &impl Abort, words: &mut SplitWhitespace) -> Serial {
    Serial::new(number(rt, word(rt, words))).expect(rt, "a serial")
}

fn change(rt: &impl Abort, word: &str) -> ChangeNo {
    ChangeNo::new(number(rt, word)).expect(rt, word)
}

/// A change, which stands at revision 1, as all do.
pub(crate) fn entry(rt: &impl Abort, word: &str) -> Entry {
    Entry {
        change: change(rt, word),
        revision: Revision::new(1).expect(rt, "a revision"),
    }
}

pub(crate) fn landing(rt: &impl Abort, words: &mut SplitWhitespace) -> Landing {
    let serial = serial(rt, words);
    let entry = entry(rt, word(rt, words));
    Landing {
        serial,
        change: entry.change,
        revision: entry.revision,
    }
}

pub(crate) fn name(rt: &(impl Abort + AllocGlobal), text: &str) -> Name {
    let text = text.to_string(rt.alloc()).expect(rt, "memory");
    Name::new(text).expect(rt, "a name")
}

/// A job of this name, by `push`.
fn push_job(rt: &(impl Abort + AllocGlobal), jobs: &mut Vec<Job>, text: &str, voting: bool) {
    let name = name(rt, text);
    jobs.push(Job { name, voting }).expect(rt, "memory");
}

/// The jobs of a project: `app` has `unit`, `web` also `docs`, and so has `lib`, where that doesn't vote.
fn jobs(rt: &(impl Abort + AllocGlobal), project: &str) -> Vec<Job> {
    let mut jobs = Vec::new(rt.alloc());
    push_job(rt, &mut jobs, "unit", true);
    match project {
        "app" => {}
        "web" => push_job(rt, &mut jobs, "docs", true),
        "lib" => push_job(rt, &mut jobs, "docs", false),
        _ => panic!(rt; "no project: {project}"),
    }
    jobs
}

/// The jobs of a project, and whether its items fail fast: those of one with a `!` behind its name do.
pub(crate) fn plan(rt: &(impl Abort + AllocGlobal), project: &str) -> (Vec<Job>, bool) {
    match project.strip_suffix('!') {
        Some(project) => (jobs(rt, project), true),
        None => (jobs(rt, project), false),
    }
}

fn pace(rt: &impl Abort, words: &mut SplitWhitespace) -> Pace {
    match word(rt, words) {
        "linear" => Pace::Linear,
        "exponential" => Pace::Exponential,
        word => panic!(rt; "no pace: {word}"),
    }
}

/// How a window grows and by how much, and how it shrinks.
pub(crate) fn rule(rt: &impl Abort, words: &mut SplitWhitespace) -> WindowRule {
    WindowRule {
        increase: pace(rt, words),
        increase_by: size(rt, words),
        decrease: pace(rt, words),
        decrease_by: size(rt, words),
    }
}

/// The needs to the end of the line, those that have landed with a `+`.
pub(crate) fn needs(rt: &(impl Abort + AllocGlobal), words: &mut SplitWhitespace) -> Vec<Need> {
    let mut needs = Vec::new(rt.alloc());
    for word in words {
        let (number, landed) = match word.strip_suffix('+') {
            Some(number) => (number, true),
            None => (word, false),
        };
        let change = change(rt, number);
        needs.push(Need { change, landed }).expect(rt, "memory");
    }
    needs
}

/// The changes to the end of the line.
fn entries(rt: &(impl Abort + AllocGlobal), words: &mut SplitWhitespace) -> Sequence<Entry> {
    let mut entries = Sequence::new(rt.alloc());
    for word in words {
        entries.push(entry(rt, word)).expect(rt, "memory");
    }
    entries
}

pub(crate) fn outcome(rt: &impl Abort, word: &str) -> Outcome {
    Outcome::of_word(word.as_bytes()).expect(rt, "an outcome")
}

/// A live build: its number, the item's serial and change, the job, after how many landings it runs, its outcome,
/// and what is ahead.
pub(crate) fn build(rt: &(impl Abort + AllocGlobal), words: &mut SplitWhitespace) -> Build {
    let number_word = number(rt, word(rt, words));
    let item = landing(rt, words);
    let job = word(rt, words);
    let after = number(rt, word(rt, words));
    let outcome = outcome(rt, word(rt, words));
    Build {
        number: BuildNo::new(number_word).expect(rt, "a build"),
        queue: name(rt, "core"),
        serial: item.serial,
        change: item.change,
        revision: item.revision,
        job: name(rt, job),
        after,
        ahead: entries(rt, words),
        outcome,
        live: true,
    }
}
