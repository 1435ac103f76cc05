//! What is true of the file's rows: each function proves one law, by its contract, and does nothing when it runs.
ghost use Rattle.gate_types.specs.declared.edits.Edit.{Edit};
ghost use Rattle.gate_rows.specs.Matches.{EditIsTold};

/// Where the file holds the gate's tables, and an edit fits them, the file holds them after the edit too.
pub fn every_edit_is_told()
    ensures { (e : Edit) → EditIsTold e }
{}
