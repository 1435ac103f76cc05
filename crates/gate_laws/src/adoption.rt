//! Other settings that are adopted, and calls with changes of settings between them.
ghost use Rattle.gate_laws.specs.Adoption.{AdoptedIsSound, AdoptedIsLawful, AdoptedContentIsLawful};
ghost use Rattle.gate_laws.specs.Adoption.{AdoptedOrdersStay, AdoptedItself, CallsAreOnce, EventsAreLawful};
ghost use Rattle.gate_laws.specs.Adoption.{EventsAreInForm, EveryChangeLandsOnceThroughEvents};
ghost use Rattle.gate_laws.specs.Adoption.{EveryLandingIsShownThroughEvents};
ghost use Rattle.gate_laws.specs.Sessions.{SameSettingsStay, SessionsAreThrough};

/// A sound state is sound under sound settings that it adopts.
pub fn adopted_is_sound()
    ensures { AdoptedIsSound }
{}

/// A lawful state is lawful under settings that it adopts: it is settled as it was.
pub fn adopted_is_lawful()
    ensures { AdoptedIsLawful }
{}

/// A lawful content stays lawful, with all that it keeps of deliveries.
pub fn adopted_content_is_lawful()
    ensures { AdoptedContentIsLawful }
{}

/// An order that is shown stays shown when other settings are adopted.
pub fn adopted_orders_stay()
    ensures { AdoptedOrdersStay }
{}

/// The settings that are in force may be adopted, and change nothing.
pub fn adopted_itself()
    ensures { AdoptedItself }
{}

/// Calls with no change of settings between them come to what they come to under settings that stay.
pub fn calls_are_once()
    ensures { CallsAreOnce }
{}

/// Any list of calls and of sound settings leaves the empty gate lawful under the settings then in force.
pub fn events_are_lawful()
    ensures { EventsAreLawful }
{}

/// Any list of calls and of settings, each of its form, leaves a lawful content lawful and of its form.
pub fn events_are_in_form()
    ensures { EventsAreInForm }
{}

/// After any list of calls and of sound settings no change stands twice among the landings of all queues.
pub fn every_change_lands_once_through_events()
    ensures { EveryChangeLandsOnceThroughEvents }
{}

/// Each voting job that a landing kept has just one live successful build, which ran on the landings up to that one.
pub fn every_landing_is_shown_through_events()
    ensures { EveryLandingIsShownThroughEvents }
{}

/// Sessions, each opened with settings that are taken before its calls, come to what all these events come to.
pub fn sessions_are_through()
    ensures { SessionsAreThrough }
{}

/// A gate that is given its own settings may take them, and stays as it is.
pub fn same_settings_stay()
    ensures { SameSettingsStay }
{}
