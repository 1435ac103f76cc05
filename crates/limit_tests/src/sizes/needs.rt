//! A change that needs as many others as there may be, in all states.
use crate::settings::TWO_QUEUES;
use crate::sizes::{Sized, are_answered, told};
use crate::talks::{Given, push_change, push_queued, push_take, push_waiting};
use std::alloc::{AllocError, Global};

/// The change, which needs those before it.
const NEEDING: u32 = 33;

/// Of the first eight nothing is known. Six are open, and six wait for one of which nothing is known.
fn push_open(talk: &mut String) -> Result<(), AllocError> {
    for n in 9..15u32 {
        push_change(talk, n, "lib", "")?;
    }
    for n in 15..21u32 {
        push_change(talk, n, "lib", "Depends-On: https://forge/c/1")?;
        push_waiting(talk, n)?;
    }
    Ok(())
}

/// Five are closed.
fn push_closed(talk: &mut String) -> Result<(), AllocError> {
    for n in 21..26u32 {
        push_change(talk, n, "lib", "")?;
        write!(
            talk,
            "> {{\"id\":\"0e000000-0000-4000-8000-{n:012}\",\"kind\":\"closed\",\"change\":{n},\"revision\":1}}\n\
             < {{\"reply\":\"recorded\"}}\n"
        )?;
    }
    Ok(())
}

const LANDS: &str =
    r#"> {"id":"0d000000-0000-4000-8000-000000000001","kind":"result","build":1,"outcome":"success"}
< {"reply":"noted"}
> {"id":"0e000000-0000-4000-8000-000000000001","kind":"landed","order":1}
< {"n":1,"reply":"landed"}
"#;

/// The last one has landed, in the other queue.
fn push_landed(talk: &mut String) -> Result<(), AllocError> {
    push_change(talk, 32, "site", "")?;
    push_queued(talk, 32, 1)?;
    let given = Given {
        build: 1,
        first: 32,
        change: 32,
        job: "unit",
        queue: "web",
    };
    push_take(talk, given)?;
    talk.push_str(LANDS)
}

/// Three are items of its queue, and three of the other one.
fn push_items(talk: &mut String) -> Result<(), AllocError> {
    for n in 26..29u32 {
        push_change(talk, n, "lib", "")?;
        push_queued(talk, n, n.saturating_sub(24))?;
    }
    for n in 29..32u32 {
        push_change(talk, n, "site", "")?;
        push_queued(talk, n, n.saturating_sub(24))?;
    }
    Ok(())
}

/// The change comes with all its lines, and waits.
fn push_needing(alloc: Global, talk: &mut String) -> Result<(), AllocError> {
    let mut message = String::new(alloc);
    for n in 1..NEEDING {
        write!(message, "Depends-On: https://forge/c/{n}\\n")?;
    }
    push_change(talk, NEEDING, "lib", message.as_str())?;
    push_waiting(talk, NEEDING)
}

/// The approval of a change, the queue that it is in, and its state.
fn state_of(n: u32) -> (u32, &'static str, &'static str) {
    match n {
        1..=8 => (0, "null", "unknown"),
        9..=14 => (0, "null", "open"),
        15..=20 => (n.saturating_sub(14), "null", "open"),
        21..=25 => (0, "null", "closed"),
        26..=28 => (0, "\"core\"", "open"),
        29..=31 => (0, "\"web\"", "open"),
        _ => (0, "null", "landed"),
    }
}

/// The change, which is the fourteenth that was approved.
fn change(alloc: Global) -> Result<String, AllocError> {
    let mut text = String::from_str(
        alloc,
        "{\"approval\":14,\"change\":33,\"full\":false,\"needs\":[",
    )?;
    for n in 1..NEEDING {
        let (approval, stands, state) = state_of(n);
        text.push_str(if n == 1 { "" } else { "," })?;
        if approval == 0 {
            text.push_str("{\"approval\":null")?;
        } else {
            write!(text, "{{\"approval\":{approval}")?;
        }
        write!(
            text,
            ",\"change\":{n},\"stands\":{stands},\"state\":\"{state}\"}}"
        )?;
    }
    text.push_str(
        "],\"order\":null,\"project\":\"lib\",\"queue\":\"core\",\"revision\":1,\"state\":\"open\"}",
    )?;
    Ok(text)
}

fn sized(alloc: Global) -> Result<Sized, AllocError> {
    let mut talk = String::new(alloc);
    push_open(&mut talk)?;
    push_closed(&mut talk)?;
    push_landed(&mut talk)?;
    push_items(&mut talk)?;
    push_needing(alloc, &mut talk)?;
    let mut sized = told(alloc, TWO_QUEUES, talk.as_str())?;
    let change = change(alloc)?;
    sized
        .exchanges
        .get("/changes/33", "application/json", change.as_str())?;
    Ok(sized)
}

#[test]
fn all_32_needs_of_a_change_are_told(rt: HostRuntime) {
    are_answered(&rt, sized(rt.alloc()), "32 needs");
}
