//! Settings by words: `core/10/1` is a queue with its window and its floor, `lib@core` a project with its queue. A `!`
//! makes a queue grow by 5, and a project fail fast.
use gate_config::read;
use gate_types::config::Config;
use std::process::Abort;

/// Adds what a word says.
fn push_setting(rt: &impl Abort, text: &mut String, word: &str) {
    let (word, more) = match word.strip_suffix('!') {
        Some(word) => (word, true),
        None => (word, false),
    };
    if let Some((name, queue)) = word.split_once('@') {
        push_project(rt, text, name, queue, more);
    } else {
        push_queue(rt, text, word, more);
    }
}

fn push_project(rt: &impl Abort, text: &mut String, name: &str, queue: &str, fast: bool) {
    write!(
        text,
        "[[project]]\nname = '{name}'\nqueue = '{queue}'\nfail_fast = {fast}\n[[project.job]]\nname = 'site'\n"
    )
    .expect(rt, "memory");
}

fn push_queue(rt: &impl Abort, text: &mut String, word: &str, more: bool) {
    let (name, sizes) = word.split_once('/').expect(rt, word);
    let (window, floor) = sizes.split_once('/').expect(rt, word);
    let by = if more { "5" } else { "1" };
    write!(
        text,
        "[[queue]]\nname = '{name}'\nwindow = {window}\nfloor = {floor}\nincrease_by = {by}\n"
    )
    .expect(rt, "memory");
}

/// The settings that some words say.
pub(crate) fn settings(rt: &(impl Abort + AllocGlobal), words: &str) -> Config {
    let mut text = String::from_str(rt.alloc(), "[forge]\nbase = 'c'\n").expect(rt, "memory");
    for word in words.split_whitespace() {
        push_setting(rt, &mut text, word);
    }
    read(rt.alloc(), text.as_str().as_bytes()).expect(rt, words)
}
