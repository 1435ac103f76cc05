//! What a lawful state becomes that was made before there were plans.
ghost use Rattle.gate_laws.specs.Migration.{MigratedIsLawful, MigratedContentIsLawful, NothingWasCut};

/// A lawful state without plans becomes a lawful one: each item and landing gets the jobs of its change's project.
pub fn migrated_is_lawful()
    ensures { MigratedIsLawful }
{}

/// So does a content, of its form.
pub fn migrated_content_is_lawful()
    ensures { MigratedContentIsLawful }
{}

/// Under settings where no project is to fail fast, no item of such a state was cut.
pub fn nothing_was_cut()
    ensures { NothingWasCut }
{}
