//! Connections of one listener, more than any other test has.
use crate::exchanges::{Exchanges, are_served};
use crate::scenes::{Asked, over_http};
use crate::talks::approvals;
use gate_archive::Archive;
use gate_core::Gate;
use std::alloc::{AllocError, Global};
use std::process::Abort;

/// Each of these changes comes over one connection, and is approved over another one.
const CHANGES: u32 = 25;

fn exchanges(alloc: Global) -> Result<Exchanges, AllocError> {
    let talk = approvals(alloc, CHANGES)?;
    let mut exchanges = Exchanges::new(alloc);
    exchanges.talk(talk.as_str())?;
    Ok(exchanges)
}

/// Each client is answered.
pub(crate) fn serves<B: Archive>(rt: &(impl Abort + AllocGlobal), gate: &mut Gate<B>) {
    let exchanges = exchanges(rt.alloc()).expect(rt, "memory");
    are_served(rt, gate, &exchanges, "connections");
}

#[test]
fn each_of_50_connections_is_answered(rt: HostRuntime) {
    over_http(&rt, Asked::Connections);
}
