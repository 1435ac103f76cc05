//! Replies, made from words: what is ahead of a build is a change and its revision a word.
use gate_types::deliveries::Reply;
use gate_types::names::Name;
use gate_types::numbers::{BuildNo, ChangeNo, Revision, Serial};
use gate_types::records::{Build, Entry, Outcome};
use gate_types::sequence::Sequence;
use gate_wire::write_reply;
use std::alloc::Global;

fn number(word: &str) -> Option<u64> {
    word.parse::<u64>().ok()
}

fn entry(word: &str) -> Option<Entry> {
    let (change, revision) = word.split_once(',')?;
    Some(Entry {
        change: ChangeNo::new(number(change)?)?,
        revision: Revision::new(number(revision)?)?,
    })
}

fn entries(alloc: Global, words: &str) -> Option<Sequence<Entry>> {
    let mut entries = Sequence::new(alloc);
    for word in words.split_whitespace() {
        entries.push(entry(word)?).ok()?;
    }
    Some(entries)
}

fn name(alloc: Global, text: &str) -> Option<Name> {
    Name::new(String::from_str(alloc, text).ok()?)
}

/// A build that runs behind so many landings and these changes.
fn build(alloc: Global, words: &str) -> Option<Reply> {
    let (after, ahead) = words.split_once(' ').unwrap_or((words, ""));
    let after = number(after)?;
    let build = BuildNo::new(3)?;
    let serial = Serial::new(2)?;
    let own = entry("102,1")?;
    let ahead = entries(alloc, ahead)?;
    let queue = name(alloc, "core")?;
    let job = name(alloc, "unit")?;
    Some(Reply::Build(Build {
        number: build,
        queue,
        serial,
        change: own.change,
        revision: own.revision,
        job,
        after,
        ahead,
        outcome: Outcome::Running,
        live: true,
    }))
}

fn reply(alloc: Global, words: &str) -> Option<Reply> {
    let (word, rest) = words.split_once(' ').unwrap_or((words, ""));
    match word {
        "recorded" => Some(Reply::Recorded),
        "stale" => Some(Reply::Stale),
        "waiting" => Some(Reply::Waiting),
        "already" => Some(Reply::Already),
        "removed" => Some(Reply::Removed),
        "noted" => Some(Reply::Noted),
        "queued" => Some(Reply::Queued(Serial::new(number(rest)?)?)),
        "landed" => Some(Reply::Landed(number(rest)?)),
        "build" => build(alloc, rest),
        _ => None,
    }
}

/// The text of a reply.
pub(crate) fn replied(alloc: Global, asked: &[u8]) -> Option<String> {
    let reply = reply(alloc, str::from_utf8(asked).ok()?)?;
    write_reply(alloc, &reply).ok()
}
