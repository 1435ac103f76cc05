//! A law of the texts: it does nothing when it runs.
ghost use Rattle.gate_kept_settings.specs.Told.{OneTextASetting};

/// A text tells one setting at most.
pub fn one_text_a_setting()
    ensures { OneTextASetting }
{}
