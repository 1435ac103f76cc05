//! What is true of the lines of deliveries: each function proves one law, by its contract, and does nothing when it
//! runs.
ghost use Rattle.gate_archive.specs.Laws.{ALineIsItsDeliveryUnderItsId};

/// The line of a delivery is the JSON object of its members and its id, in byte order of their names.
pub fn a_line_is_its_delivery_under_its_id()
    ensures { ALineIsItsDeliveryUnderItsId }
{}
