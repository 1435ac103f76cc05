//! Laws of the walk: a walk over the rows behind a touched item leaves what settling its whole queue leaves.
ghost use Rattle.gate_walk.specs.Rescan.{WalkAfterBuild, WalkAfterLeaving, WalkAfterLanding};
ghost use Rattle.gate_walk.specs.Kinds.{ItemsLeave};
ghost use Rattle.gate_walk.specs.Next.{VisitsAreTheWalk, VisitsGoOn, WalkStops};
ghost use Rattle.gate_walk.specs.Delivery.{AWalkIsEnough};

/// After the end of a running build of an item, the walk from that item on settles its queue.
pub fn a_walk_after_a_build_settles()
    ensures { WalkAfterBuild }
{}

/// After an item was taken out and didn't land, the walk from the next item on settles its queue.
pub fn a_walk_after_leaving_settles()
    ensures { WalkAfterLeaving }
{}

/// After the first non-failing item has landed, the walk from the next item on settles its queue.
pub fn a_walk_after_a_landing_settles()
    ensures { WalkAfterLanding }
{}

/// Each delivery that takes an item out leaves what these laws ask for.
pub fn items_leave()
    ensures { ItemsLeave }
{}

/// Visits of the rows that are wanted, one after another, are the walk.
pub fn visits_are_the_walk()
    ensures { VisitsAreTheWalk }
{}

/// The first visit is the last where the touched item stays and its mark is what it was; while no line has
/// changed, a visit of a non-failing item doesn't ask for the next row.
pub fn a_walk_stops()
    ensures { WalkStops }
{}

/// After a delivery on an item the walk over its queue's rows settles that queue; the other queues stay as
/// they were, and where no queue is touched there is nothing to settle.
pub fn a_walk_is_enough()
    ensures { AWalkIsEnough }
{}

/// For a loop of visits: each visit tells the first part of what is left to tell, and where no row is wanted
/// nothing is left.
pub fn visits_go_on()
    ensures { VisitsGoOn }
{}
