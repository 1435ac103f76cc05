//! Laws of the rules: each function proves one, by its contract. They do nothing when they run.
ghost use Rattle.gate_queue.specs.Laws.{RebaseKeepsMarks, SlotsTellFailing, WhatGoesStandsInNoLine, OneSweepIsOneByOne};

/// A rebase changes what is ahead of no item, no slot and no failing mark, and cuts no other item.
pub fn rebase_keeps_marks()
    ensures { RebaseKeepsMarks }
{}

/// An item is failing by its slots just where it is by what its builds have come to.
pub fn slots_tell_failing()
    ensures { SlotsTellFailing }
{}

/// What goes is failing, so no item that goes is ahead of another.
pub fn what_goes_stands_in_no_line()
    ensures { WhatGoesStandsInNoLine }
{}

/// One sweep of a queue is the same as removing one item after another, with a new look between.
pub fn one_sweep_is_one_by_one()
    ensures { OneSweepIsOneByOne }
{}
