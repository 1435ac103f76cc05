//! The log of a gate is the gate: its content is a function of the deliveries that it accepted, in their order.
ghost use Rattle.gate_laws.specs.Feed.{FormsAreInRange, ActingCallsAreKept, KeptToldAgain, LogIsTheGate};
ghost use Rattle.gate_laws.specs.Feed.{SessionsToldAgain};

/// A delivery of its form has numbers of 64 bits, so these laws hold of all typed calls.
pub fn forms_are_in_range()
    ensures { FormsAreInRange }
{}

/// Calls add to what is kept, and take nothing from it. What they add tells the calls that acted, one for one.
pub fn acting_calls_are_kept()
    ensures { ActingCallsAreKept }
{}

/// In any gate, what calls added to what is kept comes, told again in their place, to the same state, ids, texts
/// and replies.
pub fn kept_told_again()
    ensures { KeptToldAgain }
{}

/// The accepted deliveries of a gate, told to a new one in their order, make the same gate.
pub fn log_is_the_gate()
    ensures { LogIsTheGate }
{}

/// So do those of each session, told under the settings that it was opened with.
pub fn sessions_told_again()
    ensures { SessionsToldAgain }
{}
