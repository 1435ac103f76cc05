//! What is true of the tables of a content: each function proves one law, by its contract, and does nothing when run.
ghost use Rattle.gate_types.specs.Forms.{IsLawfulContent};
ghost use Rattle.gate_types.specs.Once.{Content};
ghost use Rattle.gate_types.specs.Settings.{Settings};
ghost use Rattle.gate_types.specs.Tables.{tables};
ghost use Rattle.gate_schema.specs.Rows.{AreNamed, Stored};
ghost use Rattle.gate_rows.specs.Matches.{Matches};
ghost use Rattle.gate_found_rows.specs.Whole.{IsWhole};
ghost use Rattle.gate_table_laws.specs.Answers.{IsAnsweredBy};

/// Where the file holds the tables of a lawful content, its rows have the form of a gate's.
pub fn the_rows_are_whole()
    ensures { (c : Settings) (x : Content) (b : Stored) → IsLawfulContent c x → Matches b (tables c x) → IsWhole b }
{}

/// Where the file holds the tables of a lawful content, and no two queues have one name, each read of the file is
/// that of the content.
pub fn every_read_is_told()
    ensures { (c : Settings) (x : Content) (b : Stored) → IsLawfulContent c x → AreNamed b → Matches b (tables c x) →
        IsAnsweredBy b c x }
{}
