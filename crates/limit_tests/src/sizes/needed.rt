//! One change that all others of a full queue need. 650 of them enter with it, and all leave with it.
use crate::settings::ONE_JOB;
use crate::sizes::{Sized, are_answered, told};
use crate::talks::{Given, push_change, push_failure, push_queued, push_take, push_waiting};
use std::alloc::{AllocError, Global};

/// As many items as a queue may have.
const ITEMS: u32 = 1_000;

/// The last change of those that wait for the first one, and enter with it: by one delivery, of more than 2,600 edits.
const WAITING: u32 = 651;

fn talk(alloc: Global) -> Result<String, AllocError> {
    let mut talk = String::new(alloc);
    for n in 2..WAITING.saturating_add(1) {
        push_change(&mut talk, n, "lib", "Depends-On: https://forge/c/1")?;
        push_waiting(&mut talk, n)?;
    }
    push_change(&mut talk, 1, "lib", "")?;
    push_queued(&mut talk, 1, 1)?;
    for n in WAITING.saturating_add(1)..ITEMS.saturating_add(1) {
        push_change(&mut talk, n, "lib", "Depends-On: https://forge/c/1")?;
        push_queued(&mut talk, n, n)?;
    }
    let given = Given {
        build: 1,
        first: 1,
        change: 1,
        job: "unit",
        queue: "core",
    };
    push_take(&mut talk, given)?;
    push_failure(&mut talk, 1)?;
    Ok(talk)
}

fn history(alloc: Global) -> Result<String, AllocError> {
    let mut text = String::from_str(
        alloc,
        "history core\n     1      1         1    1 failed          -\n",
    )?;
    for n in 2..ITEMS.saturating_add(1) {
        write!(text, "{n:>6} {n:>6} {n:>9}    1 needs           -\n")?;
    }
    text.push_str("end 1000\n")?;
    Ok(text)
}

fn sized(alloc: Global) -> Result<Sized, AllocError> {
    let mut sized = told(alloc, ONE_JOB, talk(alloc)?.as_str())?;
    let history = history(alloc)?;
    sized.exchanges.stream("/history/core/1", history.as_str())?;
    sized.exchanges.get(
        "/status",
        "text/plain",
        "queue core window 1 landed 0\nend\n",
    )?;
    Ok(sized)
}

#[test]
fn of_999_items_650_enter_and_all_leave_with_one_that_they_need(rt: HostRuntime) {
    are_answered(&rt, sized(rt.alloc()), "999 items need one");
}
