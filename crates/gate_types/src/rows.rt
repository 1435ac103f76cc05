//! Rows of the gate's tables, where a record's own key or state isn't all that stands in its row.
use crate::records::{Change, Landing, Report};

/// A change, and the number of its approval while it is in the ready list.
#[derive(Drop)]
pub struct ChangeRow {
    pub change: Change,
    pub approval: Option<u64>,
}

/// A landing beside its place in its queue, from 1.
#[derive(Clone, Copy, PartialEq, Eq)]
pub struct LandingRow {
    pub place: u64,
    pub landing: Landing,
}

/// A report beside its place in its queue, from 1.
#[derive(Clone, Copy, PartialEq, Eq)]
pub struct ReportRow {
    pub place: u64,
    pub report: Report,
}
