//! Reads a delivery from the bytes of a JSON text.
ghost use Rattle.serde_json.specs.View.{view};
ghost use Rattle.gate_wire.specs.Reading.{Gives, delivery_at, revision_said, data_says, says};

use crate::door::{Door, Kind};
use crate::members::{
    build_of, change_of, ending_of, id_of, kind_of, message_of, order_of, project_of, revision_of,
    worker_of,
};
use gate_types::deliveries::{Delivery, Refusal};
use gate_types::records::Id;
use serde_json::Value;
use std::alloc::Global;

fn revision_in(alloc: Global, value: &Value) -> Result<Delivery, Refusal>
    ensures { Gives (λ x. x) result (revision_said (view value.now)) }
{
    Ok(Delivery::Revision {
        change: change_of(value)?,
        project: project_of(alloc, value)?,
        revision: revision_of(value)?,
        message: message_of(alloc, value)?,
    })
}

#[tactic(auto, unfolding(crate::specs::Reading::delivery_at))]
fn delivery_of(alloc: Global, value: &Value, kind: Kind) -> Result<Delivery, Refusal>
    ensures { Gives (λ x. x) result (delivery_at kind (view value.now)) }
{
    match kind {
        Kind::Revision => Ok(revision_in(alloc, value)?),
        Kind::Approved => Ok(Delivery::Approved {
            change: change_of(value)?,
            revision: revision_of(value)?,
        }),
        Kind::Withdrawn => Ok(Delivery::Withdrawn {
            change: change_of(value)?,
            revision: revision_of(value)?,
        }),
        Kind::Closed => Ok(Delivery::Closed {
            change: change_of(value)?,
            revision: revision_of(value)?,
        }),
        Kind::Landed => Ok(Delivery::Landed {
            order: order_of(value)?,
        }),
        Kind::Refused => Ok(Delivery::Refused {
            order: order_of(value)?,
        }),
        Kind::Take => Ok(Delivery::Take {
            worker: worker_of(alloc, value)?,
        }),
        Kind::Result => Ok(Delivery::Result {
            build: build_of(value)?,
            ending: ending_of(value)?,
        }),
    }
}

#[tactic(auto, unfolding(crate::specs::Reading::data_says))]
fn from_value(alloc: Global, value: &Value, door: Door) -> Result<(Id, Delivery), Refusal>
    ensures { Gives (λ x. x) result (data_says door (view value.now)) }
{
    let id = id_of(value)?;
    let kind = kind_of(value)?;
    if !door.opens(kind) {
        return Err(Refusal::WrongDoor);
    }
    let delivery = delivery_of(alloc, value, kind)?;
    Ok((id, delivery))
}

/// The id and the delivery that the bytes of a JSON object say at a door. Members that no delivery
/// of its kind has are ignored, and of double members the last one counts.
///
/// # Errors
///
/// The first that applies, in this order:
///
/// - `BadJson`: they are no JSON (RFC 8259), are not UTF-8, nest brackets over 127 deep, or hold a
///   number that is too large for a float, anywhere;
/// - `BadDelivery`: they are no object, `id` is missing or no UUID, or `kind` is missing or none of
///   the eight kinds;
/// - `WrongDoor`: the kind belongs to the other door;
/// - `BadDelivery`: another member of the kind is missing, or isn't of its form.
///
/// `Unavailable` in place of any answer where memory was refused.
pub fn read_delivery(alloc: Global, bytes: &[u8], door: Door) -> Result<(Id, Delivery), Refusal>
    ensures { Gives (λ x. x) result (says door bytes.now) }
{
    match Value::from_slice(alloc, bytes) {
        Ok(value) => from_value(alloc, &value, door),
        Err(error) => {
            if error.is_memory() {
                Err(Refusal::Unavailable)
            } else {
                Err(Refusal::BadJson)
            }
        }
    }
}
