//! Laws of a whole queue's settling and choice, and a worked example: each function proves one, by its contract. They
//! do nothing when they run.
ghost use Rattle.gate_queue.specs.WholeQueue.ByItself.{EachQueueIsSettledByItself};
ghost use Rattle.gate_queue.specs.WholeQueue.Chooses.{FirstChoiceIsGiven};
ghost use Rattle.gate_queue.specs.WholeQueue.Examples.{TwoItemsAreSettled};

/// The rows of a queue, after a rebase and then a sweep of the whole state, are those that settling the
/// queue by itself leaves, given all live builds of its items and no build of another queue's, where no plan is of an
/// item of this queue and of one of another.
pub fn each_queue_is_settled_by_itself()
    ensures { EachQueueIsSettledByItself }
{}

/// 101 fails while its other job runs; it goes when that ends; 102 goes with it where it needs it; a
/// failure of a job that doesn't vote changes nothing.
pub fn two_items_are_settled()
    ensures { TwoItemsAreSettled }
{}

/// The first choice of a queue is the build that a worker is given first in it.
pub fn the_first_choice_is_given()
    ensures { FirstChoiceIsGiven }
{}
