//! Edits by words, with a `;` between two.
//!
//! `change 103 7 110` puts a change of `lib` at revision 1, with the number of its approval while it is ready and the
//! change that it needs: a `-` stands for neither. `item 4 102` puts an item of `core` and its change, and
//! `plan 2 fast unit -docs` what it is admitted with, where a `-` stands before a job that doesn't vote; `land 1 1 100`
//! and `report 1 1 100 landed 1` put a landing and a report at their place, `build 1 2 101` a build of an item, that
//! runs, and `keep 9 first` a reply under an id. `drop 2`, `landed 2`, `stage 103 closed`, `stop 1`, `end 2 failure`,
//! `window 5` and `order 4` are the other edits.
use crate::words::{build, change, name, number, path_name, revision, serial, size, word};
use gate_types::config::Job;
use gate_types::edits::{Counter, Edit};
use gate_types::names::Text;
use gate_types::numbers::ChangeNo;
use gate_types::records::{
    Build, Change, Id, Item, Kept, Landing, Outcome, Plan, Report, Stage, Verdict,
};
use gate_types::sequence::Sequence;
use std::process::Abort;
use std::str::SplitWhitespace;

/// Changes 101, 102 (which needs 101) and 103 (approved); items 2, which fails fast, and 4; a landing, a report and
/// two builds of item 2.
const FIRST: &str = "change 103 7 -; change 101 - -; change 102 - 101; item 4 102; item 2 101; \
    plan 4 slow unit; plan 2 fast unit -docs; land 1 1 100; plan 1 slow -docs unit; report 1 1 100 landed 1; \
    build 1 2 101; build 2 2 101; window 5; order 4; keep 9 first";

/// Changes 201 to 203 are ready and need 110, in another order of approval than by number. So are 204, which at an
/// earlier revision needed 110 and now 111, and 207, which needs none. 205 and 206 need 110: the first was never
/// approved, the approval of the other was withdrawn.
const NEEDS: &str =
    "change 201 9 110; change 202 5 110; change 203 7 110; change 204 4 110; change 204 6 111; \
    change 205 - 110; change 206 8 110; change 206 - 110; change 207 10 -";

/// The edits that a word names, or those that the words say.
fn edits_named(words: &str) -> &str {
    match words {
        "first" => FIRST,
        "needs" => NEEDS,
        _ => words,
    }
}

/// The number that the next word says, where it isn't a `-`.
fn some_number(rt: &impl Abort, words: &mut SplitWhitespace) -> Option<u64> {
    match word(rt, words) {
        "-" => None,
        word => Some(word.parse::<u64>().expect(rt, word)),
    }
}

/// The only need of a change, or none.
fn needs(rt: &(impl Abort + AllocGlobal), need: Option<u64>) -> Sequence<ChangeNo> {
    let mut needs = Sequence::new(rt.alloc());
    if let Some(need) = need {
        let need = ChangeNo::new(need).expect(rt, "a change");
        needs.push(need).expect(rt, "memory");
    }
    needs
}

fn put_change(rt: &(impl Abort + AllocGlobal), words: &mut SplitWhitespace) -> Edit {
    let number = change(rt, words);
    let approval = some_number(rt, words);
    Edit::PutChange {
        change: Change {
            number,
            project: path_name(rt, "lib"),
            revision: revision(rt),
            stage: Stage::Open,
            needs: needs(rt, some_number(rt, words)),
        },
        approval,
    }
}

fn stage(rt: &impl Abort, words: &mut SplitWhitespace) -> Stage {
    match word(rt, words) {
        "landed" => Stage::Landed,
        "closed" => Stage::Closed,
        word => panic!(rt; "no stage: {word}"),
    }
}

fn item(rt: &impl Abort, words: &mut SplitWhitespace) -> Item {
    Item {
        serial: serial(rt, words),
        change: change(rt, words),
        revision: revision(rt),
        ahead: None,
        failing: false,
    }
}

/// The jobs to the end of the words.
fn jobs(rt: &(impl Abort + AllocGlobal), words: &mut SplitWhitespace) -> Sequence<Job> {
    let mut jobs = Sequence::new(rt.alloc());
    for word in words {
        let voting = !word.starts_with('-');
        let name = name(rt, word.strip_prefix('-').unwrap_or(word));
        jobs.push(Job { name, voting }).expect(rt, "memory");
    }
    jobs
}

fn plan(rt: &(impl Abort + AllocGlobal), words: &mut SplitWhitespace) -> Plan {
    Plan {
        serial: serial(rt, words),
        fast: word(rt, words) == "fast",
        jobs: jobs(rt, words),
    }
}

fn landing(rt: &impl Abort, words: &mut SplitWhitespace) -> Landing {
    Landing {
        serial: serial(rt, words),
        change: change(rt, words),
        revision: revision(rt),
    }
}

fn verdict(rt: &impl Abort, words: &mut SplitWhitespace) -> Verdict {
    match word(rt, words) {
        "landed" => Verdict::Landed(number(rt, words)),
        "failed" => Verdict::Failed,
        word => panic!(rt; "no verdict: {word}"),
    }
}

fn report(rt: &impl Abort, words: &mut SplitWhitespace) -> Report {
    Report {
        serial: serial(rt, words),
        change: change(rt, words),
        revision: revision(rt),
        verdict: verdict(rt, words),
    }
}

fn put_build(rt: &(impl Abort + AllocGlobal), words: &mut SplitWhitespace) -> Edit {
    Edit::PutBuild(Build {
        number: build(rt, words),
        queue: name(rt, "core"),
        serial: serial(rt, words),
        change: change(rt, words),
        revision: revision(rt),
        job: name(rt, "unit"),
        after: 1,
        ahead: Sequence::new(rt.alloc()),
        outcome: Outcome::Running,
        live: true,
    })
}

fn outcome(rt: &impl Abort, words: &mut SplitWhitespace) -> Outcome {
    let word = word(rt, words);
    Outcome::of_word(word.as_bytes()).expect(rt, word)
}

pub(crate) fn id(number: u64) -> Id {
    Id((number as u128).to_be_bytes())
}

/// Keeps a reply under an id.
pub(crate) fn keep(rt: &(impl Abort + AllocGlobal), number: u64, reply: &str) -> Edit {
    Edit::Keep(Kept {
        id: id(number),
        said: Text::new(String::from_str(rt.alloc(), "said").expect(rt, "memory")),
        reply: Text::new(String::from_str(rt.alloc(), reply).expect(rt, "memory")),
    })
}

/// An edit that names a queue, which is `core`.
fn edit_in(rt: &(impl Abort + AllocGlobal), kind: &str, words: &mut SplitWhitespace) -> Edit {
    let queue = name(rt, "core");
    match kind {
        "item" => Edit::PutItem {
            queue,
            item: item(rt, words),
        },
        "land" => Edit::PutLanding {
            queue,
            place: number(rt, words),
            landing: landing(rt, words),
        },
        "report" => Edit::PutReport {
            queue,
            place: number(rt, words),
            report: report(rt, words),
        },
        "window" => Edit::SetWindow {
            queue,
            window: size(rt, words),
        },
        _ => panic!(rt; "no edit: {kind}"),
    }
}

fn edit(rt: &(impl Abort + AllocGlobal), words: &mut SplitWhitespace) -> Edit {
    match word(rt, words) {
        "change" => put_change(rt, words),
        "stage" => Edit::SetStage {
            change: change(rt, words),
            stage: stage(rt, words),
        },
        "drop" => Edit::DropItem(serial(rt, words)),
        "landed" => Edit::LandItem(serial(rt, words)),
        "plan" => Edit::PutPlan(plan(rt, words)),
        "build" => put_build(rt, words),
        "end" => Edit::SetOutcome {
            build: build(rt, words),
            outcome: outcome(rt, words),
        },
        "stop" => Edit::StopBuild(build(rt, words)),
        "order" => Edit::SetCounter {
            counter: Counter::Order,
            drawn: number(rt, words),
        },
        "keep" => keep(rt, number(rt, words), word(rt, words)),
        kind => edit_in(rt, kind, words),
    }
}

/// The edits that these words say or name.
pub(crate) fn edits(rt: &(impl Abort + AllocGlobal), words: &str) -> Vec<Edit> {
    let mut edits = Vec::new(rt.alloc());
    for text in edits_named(words).split(';') {
        let mut words = text.split_whitespace();
        edits.push(edit(rt, &mut words)).expect(rt, "memory");
        assert!(rt; words.next().is_none(), "{text}");
    }
    edits
}
