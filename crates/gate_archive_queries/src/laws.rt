//! What is true of the tables of a content: the function proves a law, by its contract, and does nothing when it runs.
ghost use Rattle.gate_types.specs.Forms.{IsLawfulContent};
ghost use Rattle.gate_types.specs.Once.{Content};
ghost use Rattle.gate_types.specs.Settings.{Settings};
ghost use Rattle.gate_types.specs.Tables.{tables};
ghost use Rattle.gate_schema.specs.Rows.{AreNamed, Stored};
ghost use Rattle.gate_rows.specs.Matches.{Matches};
ghost use Rattle.gate_archive_queries.specs.Answers.{IsArchiveOf};

/// Where the file holds the tables of a lawful content, and no two queues have one name, each read of the past of the
/// file is that of the content.
pub fn every_read_of_the_past_is_told()
    ensures { (c : Settings) (x : Content) (b : Stored) → IsLawfulContent c x → AreNamed b → Matches b (tables c x) →
        IsArchiveOf b x }
{}
