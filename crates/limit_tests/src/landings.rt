//! A change of each queue comes, is approved, built and lands, with as many queues, projects and jobs as there may be.
use crate::claims::is_long;
use crate::exchanges::{Exchanges, are_served};
use crate::scenes::{Asked, Scene, Stored, in_memory, over_http, over_tables};
use crate::settings::{JOBS, PROJECTS_OF_A_QUEUE, QUEUES};
use crate::talks::tells;
use gate_archive::Archive;
use gate_core::Gate;
use std::alloc::{AllocError, Global};
use std::process::Abort;

/// What is told, and what is shown then.
#[derive(Drop)]
struct Texts {
    built: String,
    orders: String,
    status: String,
    landed: String,
    last_status: String,
}

/// Change n comes to the last project of the n-th queue, and is approved.
fn push_approval(talk: &mut String, n: u32, order: u32) -> Result<(), AllocError> {
    write!(
        talk,
        "> {{\"id\":\"0a000000-0000-4000-8000-{n:012}\",\"kind\":\"revision\",\"change\":{n},\"project\":\"queue-{n}/{PROJECTS_OF_A_QUEUE}\",\"revision\":1,\"message\":\"\"}}\n\
         < {{\"reply\":\"recorded\"}}\n\
         > {{\"id\":\"0b000000-0000-4000-8000-{n:012}\",\"kind\":\"approved\",\"change\":{n},\"revision\":1}}\n\
         < {{\"order\":{order},\"reply\":\"queued\"}}\n"
    )
}

/// A worker takes this job of change n under this number, and it succeeds.
fn push_build(talk: &mut String, build: u32, n: u32, job: u32) -> Result<(), AllocError> {
    write!(
        talk,
        "> {{\"id\":\"0c000000-0000-4000-8000-{build:012}\",\"kind\":\"take\",\"worker\":\"w1\"}}\n\
         < {{\"after\":0,\"ahead\":[],\"build\":{build},\"change\":{n},\"job\":\"job-{job}\",\"queue\":\"queue-{n}\",\"reply\":\"build\",\"revision\":1}}\n\
         > {{\"id\":\"0d000000-0000-4000-8000-{build:012}\",\"kind\":\"result\",\"build\":{build},\"outcome\":\"success\"}}\n\
         < {{\"reply\":\"noted\"}}\n"
    )
}

/// The order of change n: the change of the last queue is the first that is approved.
fn order_of(n: u32) -> u32 {
    QUEUES.saturating_sub(n).saturating_add(1)
}

/// The changes come from the last queue to the first, each once the jobs of the one before are done. So the item whose
/// jobs wait is in the first queue that has an item, and the gate finds it at once. The last worker gets nothing, after
/// a look at all queues.
fn built(alloc: Global) -> Result<String, AllocError> {
    let mut talk = String::new(alloc);
    let mut build = 0u32;
    for order in 1..=QUEUES {
        let n = order_of(order);
        push_approval(&mut talk, n, order)?;
        for job in 1..=JOBS {
            build = build.saturating_add(1);
            push_build(&mut talk, build, n, job)?;
        }
    }
    talk.push_str(
        "> {\"id\":\"0c000000-0000-4000-8000-000000009999\",\"kind\":\"take\",\"worker\":\"w1\"}\n\
         < {\"code\":\"E12\",\"error\":\"idle\"}\n",
    )?;
    Ok(talk)
}

/// An order for each queue.
fn orders(alloc: Global) -> Result<String, AllocError> {
    let mut text = String::new(alloc);
    for n in 1..=QUEUES {
        let order = order_of(n);
        text.push(if n == 1 { '[' } else { ',' })?;
        write!(
            text,
            "{{\"change\":{n},\"order\":{order},\"project\":\"queue-{n}/{PROJECTS_OF_A_QUEUE}\",\"queue\":\"queue-{n}\",\"revision\":1}}"
        )?;
    }
    text.push(']')?;
    Ok(text)
}

/// In each queue stands its change, with all its jobs done.
fn status(alloc: Global) -> Result<String, AllocError> {
    let mut text = String::new(alloc);
    for n in 1..=QUEUES {
        let order = order_of(n);
        write!(
            text,
            "queue queue-{n} window 2 landed 0\n{order:>6} {n:>9}    1      - ok     "
        )?;
        for job in 1..=JOBS {
            write!(text, " job-{job}=success")?;
        }
        text.push('\n')?;
    }
    text.push_str("end\n")?;
    Ok(text)
}

/// The forge lands all changes.
fn landed(alloc: Global) -> Result<String, AllocError> {
    let mut talk = String::new(alloc);
    for n in 1..=QUEUES {
        write!(
            talk,
            "> {{\"id\":\"0e000000-0000-4000-8000-{n:012}\",\"kind\":\"landed\",\"order\":{n}}}\n\
             < {{\"n\":1,\"reply\":\"landed\"}}\n"
        )?;
    }
    Ok(talk)
}

/// Each queue has a landing, by which its window grew.
fn last_status(alloc: Global) -> Result<String, AllocError> {
    let mut text = String::new(alloc);
    for n in 1..=QUEUES {
        write!(text, "queue queue-{n} window 3 landed 1\n")?;
    }
    text.push_str("end\n")?;
    Ok(text)
}

fn new_texts(alloc: Global) -> Result<Texts, AllocError> {
    Ok(Texts {
        built: built(alloc)?,
        orders: orders(alloc)?,
        status: status(alloc)?,
        landed: landed(alloc)?,
        last_status: last_status(alloc)?,
    })
}

/// The gate shows these orders and this status.
fn shows<B: Archive>(
    rt: &(impl Abort + AllocGlobal),
    gate: &mut Gate<B>,
    orders: &str,
    status: &str,
) {
    let shown = gate.orders(rt.alloc()).expect(rt, "the orders");
    is_long(rt, shown.as_str(), orders, "the orders");
    let shown = gate.status(rt.alloc()).expect(rt, "the status");
    is_long(rt, shown.as_str(), status, "the status");
}

/// The gate is told, and shows, what it is to.
pub(crate) fn plays<B: Archive>(rt: &(impl Abort + AllocGlobal), gate: &mut Gate<B>) {
    let texts = new_texts(rt.alloc()).expect(rt, "memory");
    tells(rt, gate, "built", texts.built.as_str());
    shows(rt, gate, texts.orders.as_str(), texts.status.as_str());
    tells(rt, gate, "landed", texts.landed.as_str());
    shows(rt, gate, "[]", texts.last_status.as_str());
}

/// The same by requests.
fn exchanges(alloc: Global) -> Result<Exchanges, AllocError> {
    let texts = new_texts(alloc)?;
    let mut exchanges = Exchanges::new(alloc);
    exchanges.talk(texts.built.as_str())?;
    exchanges.get("/orders", "application/json", texts.orders.as_str())?;
    exchanges.get("/status", "text/plain", texts.status.as_str())?;
    exchanges.talk(texts.landed.as_str())?;
    exchanges.get("/orders", "application/json", "[]")?;
    exchanges.get("/status", "text/plain", texts.last_status.as_str())?;
    Ok(exchanges)
}

/// The gate answers and shows the same over HTTP.
pub(crate) fn serves<B: Archive>(rt: &(impl Abort + AllocGlobal), gate: &mut Gate<B>) {
    let exchanges = exchanges(rt.alloc()).expect(rt, "memory");
    are_served(rt, gate, &exchanges, "each queue");
}

#[test]
fn each_of_32_queues_lands_a_change_in_memory(rt: HostRuntime) {
    in_memory(&rt, Scene::Largest);
}

#[test]
fn each_of_32_queues_lands_a_change_over_tables(rt: HostRuntime) {
    over_tables(&rt, Stored::Scene(Scene::Largest));
}

#[test]
fn each_of_32_queues_lands_a_change_over_http(rt: HostRuntime) {
    over_http(&rt, Asked::Scene(Scene::Largest));
}
