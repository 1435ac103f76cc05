//! What is true of the texts: each function proves one law, by its contract, and does nothing when it runs.
ghost use Rattle.gate_schema.specs.Made.{MakeInTurn};
ghost use Rattle.gate_schema.specs.Schema.{gate_schema, gate_texts, schema_with};

/// The texts of the tables and indexes, run in turn on a file with none, make the gate's schema.
pub fn the_texts_make_the_schema()
    ensures schema { MakeInTurn gate_texts (schema_with 0 0) gate_schema }
{}
