//! A full queue before which 1,300 changes wait, beside a queue of 300 items.
use crate::settings::TWO_QUEUES;
use crate::sizes::{Sized, are_answered, told};
use crate::talks::{Given, approvals, push_change, push_queued, push_take, push_waiting};
use std::alloc::{AllocError, Global};

/// As many items as a queue may have.
const ITEMS: u32 = 1_000;

/// The last change that waits.
const LAST: u32 = 2_300;

/// The items of the other queue, of the changes from 3,001 on.
const OTHERS: u32 = 300;

fn talk(alloc: Global) -> Result<String, AllocError> {
    let mut talk = approvals(alloc, ITEMS)?;
    for n in 1_001..LAST.saturating_add(1) {
        push_change(&mut talk, n, "lib", "")?;
        push_waiting(&mut talk, n)?;
    }
    for n in 1..OTHERS.saturating_add(1) {
        let change = n.saturating_add(3_000);
        push_change(&mut talk, change, "site", "")?;
        push_queued(&mut talk, change, n.saturating_add(ITEMS))?;
    }
    Ok(talk)
}

/// The lines of items in a queue: the first has this order number and is of this change.
fn push_items(text: &mut String, order: u32, change: u32, items: u32) -> Result<(), AllocError> {
    for n in 0..items {
        let this = order.saturating_add(n);
        let change = change.saturating_add(n);
        write!(text, "{this:>6} {change:>9}    1 ")?;
        if n == 0 {
            text.push_str("     -")?;
        } else {
            let ahead = this.saturating_sub(1);
            write!(text, "{ahead:>6}")?;
        }
        text.push_str(" ok      unit=waiting\n")?;
    }
    Ok(())
}

fn status(alloc: Global) -> Result<String, AllocError> {
    let mut text = String::from_str(alloc, "queue core window 2 landed 0\n")?;
    push_items(&mut text, 1, 1, ITEMS)?;
    text.push_str("queue web window 2 landed 0\n")?;
    push_items(&mut text, 1_001, 3_001, OTHERS)?;
    for n in 1_001..LAST.saturating_add(1) {
        write!(text, "waiting {n} 1\n")?;
    }
    text.push_str("end\n")?;
    Ok(text)
}

/// The first item leaves for a new revision, and the first that waits enters.
const LEAVES: &str =
    r#"> {"id":"0e000000-0000-4000-8000-000000000001","kind":"revision","change":1,"project":"lib","revision":2,"message":""}
< {"reply":"recorded"}
"#;

const ENTERED: &str =
    r#"{"approval":null,"change":1001,"full":true,"needs":[],"order":1301,"project":"lib","queue":"core","revision":1,"state":"open"}"#;

const WAITS: &str =
    r#"{"approval":2300,"change":2300,"full":true,"needs":[],"order":null,"project":"lib","queue":"core","revision":1,"state":"open"}"#;

fn sized(alloc: Global) -> Result<Sized, AllocError> {
    let mut sized = told(alloc, TWO_QUEUES, talk(alloc)?.as_str())?;
    let status = status(alloc)?;
    sized
        .exchanges
        .get("/status", "text/plain", status.as_str())?;
    let mut talk = String::from_str(alloc, LEAVES)?;
    let given = Given {
        build: 1,
        first: 2,
        change: 2,
        job: "unit",
        queue: "core",
    };
    push_take(&mut talk, given)?;
    sized.exchanges.talk(talk.as_str())?;
    sized
        .exchanges
        .get("/changes/1001", "application/json", ENTERED)?;
    sized
        .exchanges
        .get("/changes/2300", "application/json", WAITS)?;
    Ok(sized)
}

#[test]
fn one_of_1_300_changes_enters_a_full_queue_once_there_is_room(rt: HostRuntime) {
    are_answered(&rt, sized(rt.alloc()), "1,300 changes wait");
}
