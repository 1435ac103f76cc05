//! The largest settings under the longest names, which a file takes that was made with a queue less.
use crate::settings::{JOBS, QUEUES, long_name, longest_text};
use crate::sizes::{Sized, are_answered, told};
use crate::talks::{push_change, push_queued};
use std::alloc::{AllocError, Global};

/// A change of the last project, in the last queue.
fn talk(alloc: Global) -> Result<String, AllocError> {
    let mut talk = String::new(alloc);
    let project = long_name(alloc, "proj", 256)?;
    push_change(&mut talk, 1, project.as_str(), "")?;
    push_queued(&mut talk, 1, 1)?;
    Ok(talk)
}

fn status(alloc: Global) -> Result<String, AllocError> {
    let mut text = String::new(alloc);
    for n in 1..=QUEUES {
        let name = long_name(alloc, "line", n)?;
        write!(text, "queue {name} window 1000 landed 0\n")?;
    }
    text.push_str("     1         1    1      - ok     ")?;
    for n in 1..=JOBS {
        let name = long_name(alloc, "work", n)?;
        write!(text, " {name}=waiting")?;
    }
    text.push_str("\nend\n")?;
    Ok(text)
}

fn sized(alloc: Global) -> Result<Sized, AllocError> {
    let mut sized = told(
        alloc,
        longest_text(alloc, QUEUES)?.as_str(),
        talk(alloc)?.as_str(),
    )?;
    sized.before = longest_text(alloc, QUEUES.saturating_sub(1))?;
    let status = status(alloc)?;
    sized
        .exchanges
        .get("/status", "text/plain", status.as_str())?;
    Ok(sized)
}

#[test]
fn the_longest_settings_are_taken(rt: HostRuntime) {
    are_answered(&rt, sized(rt.alloc()), "the longest settings");
}
