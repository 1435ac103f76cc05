//! One item that is built anew 32 times, each time with 32 jobs.
use crate::settings::JOBS;
use crate::sizes::{Sized, are_answered, unbounded};
use crate::talks::{Given, push_change, push_failure, push_queued, push_take};
use std::alloc::{AllocError, Global};

/// The item that is built anew as each one before it fails.
const BUILT: u32 = 33;

/// The changes before it have one job each, and it has 32.
fn push_arrivals(talk: &mut String) -> Result<(), AllocError> {
    for n in 1..BUILT {
        push_change(talk, n, "app", "")?;
        push_queued(talk, n, n)?;
    }
    push_change(talk, BUILT, "lib", "")?;
    push_queued(talk, BUILT, BUILT)
}

/// The last build before these of the item in a round, of which each begins with an item less than the one before.
fn drawn_before(round: u32) -> u32 {
    let mut drawn = 0u32;
    for n in 1..round.saturating_add(1) {
        let fronts = BUILT.saturating_sub(n);
        let jobs = if n == round { 0 } else { JOBS };
        drawn = drawn.saturating_add(fronts).saturating_add(jobs);
    }
    drawn
}

/// Workers take the job of each item from this one on, and the first of them fails.
fn push_fronts(talk: &mut String, round: u32) -> Result<u32, AllocError> {
    let fronts = BUILT.saturating_sub(round);
    let first = drawn_before(round).saturating_sub(fronts).saturating_add(1);
    for n in 0..fronts {
        let given = Given {
            build: first.saturating_add(n),
            first: round,
            change: round.saturating_add(n),
            job: "unit",
            queue: "core",
        };
        push_take(talk, given)?;
    }
    Ok(first)
}

/// A worker takes each job of the last item.
fn push_jobs(alloc: Global, talk: &mut String, round: u32) -> Result<(), AllocError> {
    for n in 1..=JOBS {
        let job = format!(in alloc; "job-{n}")?;
        let given = Given {
            build: drawn_before(round).saturating_add(n),
            first: round,
            change: BUILT,
            job: job.as_str(),
            queue: "core",
        };
        push_take(talk, given)?;
    }
    Ok(())
}

fn talk(alloc: Global) -> Result<String, AllocError> {
    let mut talk = String::new(alloc);
    push_arrivals(&mut talk)?;
    for round in 1..BUILT {
        let first = push_fronts(&mut talk, round)?;
        push_jobs(alloc, &mut talk, round)?;
        push_failure(&mut talk, first)?;
    }
    Ok(talk)
}

/// The builds of the item in a round, from this job on.
fn push_builds(text: &mut String, round: u32, job: u32) -> Result<(), AllocError> {
    for n in job..JOBS.saturating_add(1) {
        let build = drawn_before(round).saturating_add(n);
        text.push_str(if text.ends_with('[') { "" } else { "," })?;
        write!(
            text,
            "{{\"build\":{build},\"job\":\"job-{n}\",\"live\":false,\"outcome\":\"running\"}}"
        )?;
    }
    Ok(())
}

/// The item, with the last 1,000 of its 1,024 builds.
fn item(alloc: Global) -> Result<String, AllocError> {
    let mut text = String::from_str(alloc, "{\"builds\":[")?;
    push_builds(&mut text, 1, 25)?;
    for round in 2..BUILT {
        push_builds(&mut text, round, 1)?;
    }
    text.push_str("],\"change\":33,\"jobs\":[")?;
    for n in 1..=JOBS {
        text.push_str(if n == 1 { "" } else { "," })?;
        write!(
            text,
            "{{\"job\":\"job-{n}\",\"slot\":\"waiting\",\"voting\":true}}"
        )?;
    }
    text.push_str(
        "],\"kept\":1024,\"order\":33,\"queue\":\"core\",\"revision\":1,\"verdict\":null}",
    )?;
    Ok(text)
}

fn sized(alloc: Global) -> Result<Sized, AllocError> {
    unbounded(
        alloc,
        talk(alloc)?.as_str(),
        "/items/33",
        item(alloc)?.as_str(),
    )
}

#[test]
fn the_last_1_000_of_1_024_builds_are_told(rt: HostRuntime) {
    are_answered(&rt, sized(rt.alloc()), "an item of 1,024 builds");
}
