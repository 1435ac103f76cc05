//! What a delivery comes to before settling.
use crate::touched::TouchedItem;
use gate_types::deliveries::{Refusal, Reply};
use gate_types::edits::Edit;
use gate_types::numbers::ChangeNo;

/// A reply: known at once, or told by where a change stands once all is settled.
#[derive(Drop)]
pub enum PendingReply {
    Now(Reply),
    PlaceOf(ChangeNo),
}

/// Edits that settle nothing yet, the reply, and the item that they touch, if they touch one.
#[derive(Drop)]
pub struct Moved {
    pub reply: PendingReply,
    pub edits: Vec<Edit>,
    pub touched: Option<TouchedItem>,
}

/// A delivery is refused, or it is accepted: it changes nothing, or these edits stand for it.
#[derive(Drop)]
pub enum Raw {
    Refused(Refusal),
    Stands(Reply),
    Moved(Moved),
}
