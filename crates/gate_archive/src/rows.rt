//! What a book answers of the past.
use gate_types::names::Name;
use gate_types::numbers::BuildNo;
use gate_types::records::{Outcome, Report};

/// The report of an item that left, and the name of its queue.
#[derive(Drop)]
pub struct LeftItem {
    pub queue: Name,
    pub report: Report,
}

/// What is told of a build beside others of its item.
#[derive(Drop)]
pub struct BuildSummary {
    pub number: BuildNo,
    pub job: Name,
    pub live: bool,
    pub outcome: Outcome,
}
