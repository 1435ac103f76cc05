//! Laws of the definitions: each function proves one, by its contract. They do nothing when they run.
ghost use Rattle.gate_types.specs.OneText.{OneTextADelivery};
ghost use Rattle.gate_types.specs.Acting.{OnlyActingDeliveriesCount};
ghost use Rattle.gate_types.specs.AdoptedTables.{TablesAreAdopted};

/// Different deliveries have different canonical texts.
pub fn one_text_a_delivery()
    ensures { OneTextADelivery }
{}

/// The state after any calls, with their repeats and refusals, is that of the deliveries that acted,
/// one after another.
pub fn only_acting_deliveries_count()
    ensures { OnlyActingDeliveriesCount }
{}

/// Other settings change of the tables the order of the queues, some windows, and which queues there are.
pub fn tables_are_adopted()
    ensures { TablesAreAdopted }
{}
