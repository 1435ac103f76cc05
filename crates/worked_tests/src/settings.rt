//! Settings files by a few words, as `core 2 1 and web, docs votes`.
//!
//! They begin with the queue `core`, its window and its floor, and it has the projects `lib` and `app`; behind
//! `and web` comes the queue `web` with its project `site`, which `behind web` puts first. Behind each comma stands a
//! change.
use crate::claims::holds;
use gate_config::read;
use gate_types::config::Config;
use std::process::Abort;

/// The projects of the queue `core`.
const LIB_AND_APP: &str = r#"
[[project]]
name = "lib"
queue = "core"
[[project.job]]
name = "unit"
[[project.job]]
name = "docs"
voting = false

[[project]]
name = "app"
queue = "core"
[[project.job]]
name = "unit"
"#;

/// A second queue, `web`, with its project `site`.
const WEB: &str = r#"
[[queue]]
name = "web"
window = 2
floor = 1

[[project]]
name = "site"
queue = "web"
[[project.job]]
name = "unit"
"#;

/// The words of a change, what stands in a file without it, and what stands there with it.
const CHANGES: [(&str, &str, &str); 8] = [
    ("docs votes", "voting = false\n", ""),
    (
        "lib fails fast",
        "name = \"lib\"\n",
        "name = \"lib\"\nfail_fast = true\n",
    ),
    (
        "app fails fast",
        "name = \"app\"\n",
        "name = \"app\"\nfail_fast = true\n",
    ),
    (
        "core doubles and loses five",
        "name = \"core\"\n",
        "name = \"core\"\nincrease = \"exponential\"\nincrease_by = 2\ndecrease = \"linear\"\ndecrease_by = 5\n",
    ),
    (
        "core gains seven and keeps a third",
        "name = \"core\"\n",
        "name = \"core\"\nincrease_by = 7\ndecrease_by = 3\n",
    ),
    ("site in core", "queue = \"web\"\n", "queue = \"core\"\n"),
    (
        "without site",
        "\n[[project]]\nname = \"site\"\nqueue = \"web\"\n[[project.job]]\nname = \"unit\"\n",
        "",
    ),
    ("another forge", "https://forge/c/", "https://other/c/"),
];

/// What is said of `core`, and what stands before it and behind it.
fn around_core(queues: &str) -> (&str, &'static str, &'static str) {
    if let Some(core) = queues.strip_suffix(" and web") {
        (core, "", WEB)
    } else if let Some(core) = queues.strip_suffix(" behind web") {
        (core, WEB, "")
    } else {
        (queues, "", "")
    }
}

/// The settings file of these queues.
fn unchanged(rt: &(impl Abort + AllocGlobal), queues: &str) -> String {
    let (core, before, behind) = around_core(queues);
    let core = core.strip_prefix("core ").expect(rt, queues);
    let (window, floor) = core.split_once(' ').expect(rt, queues);
    format!(in rt.alloc();
        "[forge]\nbase = \"https://forge/c/\"\n{before}\n\
         [[queue]]\nname = \"core\"\nwindow = {window}\nfloor = {floor}\n{LIB_AND_APP}{behind}"
    )
    .expect(rt, "memory")
}

/// What these words change, and into what.
fn change(rt: &impl Abort, words: &str) -> (&'static str, &'static str) {
    for (name, from, to) in CHANGES {
        if name == words {
            return (from, to);
        }
    }
    panic!(rt; "no change of settings: {words}")
}

/// The settings file of these words.
fn settings(rt: &(impl Abort + AllocGlobal), words: &str) -> String {
    let (queues, changes) = words.split_once(", ").unwrap_or((words, ""));
    let mut text = unchanged(rt, queues);
    for words in changes.split(", ") {
        if !words.is_empty() {
            let (from, to) = change(rt, words);
            holds(rt, text.contains(from), words);
            text = text.replacen(rt.alloc(), from, to, 1).expect(rt, "memory");
        }
    }
    text
}

/// The settings of these words.
pub(crate) fn config(rt: &(impl Abort + AllocGlobal), words: &str) -> Config {
    read(rt.alloc(), settings(rt, words).as_bytes()).expect(rt, words)
}
