//! 1,001 builds that run in two queues.
use crate::settings::JOBS;
use crate::sizes::{Sized, are_answered, unbounded};
use crate::talks::{Given, push_change, push_queued, push_take};
use std::alloc::{AllocError, Global};

/// The changes of each queue, whose order numbers are their own numbers.
const CHANGES: u32 = 16;

const BUILDS: u32 = 1_001;

/// The first change of the second queue.
const SECOND: u32 = 17;

fn push_arrivals(talk: &mut String) -> Result<(), AllocError> {
    for n in 1..SECOND {
        push_change(talk, n, "lib", "")?;
        push_queued(talk, n, n)?;
    }
    for n in SECOND..SECOND.saturating_add(CHANGES) {
        push_change(talk, n, "site", "")?;
        push_queued(talk, n, n)?;
    }
    Ok(())
}

/// The change of this build, and the number of its job.
fn built(build: u32) -> (u32, u32) {
    let at = build.saturating_sub(1);
    ((at / JOBS).saturating_add(1), (at % JOBS).saturating_add(1))
}

/// The queue of a change, and the first change in it.
fn queue_of(change: u32) -> (&'static str, u32) {
    if change < SECOND {
        ("core", 1)
    } else {
        ("web", SECOND)
    }
}

fn talk(alloc: Global) -> Result<String, AllocError> {
    let mut talk = String::new(alloc);
    push_arrivals(&mut talk)?;
    for build in 1..=BUILDS {
        let (change, n) = built(build);
        let (queue, first) = queue_of(change);
        let job = format!(in alloc; "job-{n}")?;
        let given = Given {
            build,
            first,
            change,
            job: job.as_str(),
            queue,
        };
        push_take(&mut talk, given)?;
    }
    Ok(talk)
}

/// The first 1,000 of all that runs.
fn running(alloc: Global) -> Result<String, AllocError> {
    let mut text = String::from_str(alloc, "{\"builds\":[")?;
    for build in 1..BUILDS {
        let (change, n) = built(build);
        let (queue, _) = queue_of(change);
        text.push_str(if build == 1 { "" } else { "," })?;
        write!(
            text,
            "{{\"build\":{build},\"change\":{change},\"job\":\"job-{n}\",\"order\":{change},\"queue\":\"{queue}\",\"revision\":1}}"
        )?;
    }
    text.push_str("],\"running\":1001}")?;
    Ok(text)
}

fn sized(alloc: Global) -> Result<Sized, AllocError> {
    let running = running(alloc)?;
    let talk = talk(alloc)?;
    unbounded(alloc, talk.as_str(), "/running", running.as_str())
}

#[test]
fn the_first_1_000_of_1_001_running_builds_are_told(rt: HostRuntime) {
    are_answered(&rt, sized(rt.alloc()), "1,001 builds run");
}
