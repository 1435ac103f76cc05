//! Worked examples of the rules: each function proves one, by its contract, over the definitions that
//! the gate is proved against. They do nothing when they run.
ghost use Rattle.gate_laws.specs.DeliveryExamples.{ARepeatGetsTheKeptReply, ASpentIdServesNothingElse};
ghost use Rattle.gate_laws.specs.DeliveryExamples.{ARefusalSpendsNoId, AnUnavailableCallMayComeAgain};
ghost use Rattle.gate_laws.specs.DeliveryExamples.{ARevisionSupersedes};
ghost use Rattle.gate_laws.specs.BuildExamples.{BuildsAreGivenFrontToBack, AFailureResetsTheItemsBehindIt};
ghost use Rattle.gate_laws.specs.BuildExamples.{AFailureBehindAnItemStays, ALostBuildIsTriedThreeTimes};
ghost use Rattle.gate_laws.specs.BuildExamples.{LossesOnTwoLinesArentAdded};
ghost use Rattle.gate_laws.specs.FastExamples.{FailFastIsTold, AFastFailureGoesAtOnce, AFastFailureBehindAnItemSkips};
ghost use Rattle.gate_laws.specs.FastExamples.{AJobThatDoesntVoteSkipsNothing};
ghost use Rattle.gate_laws.specs.LandingExamples.{AnItemLandsBeforeAFailingOne, AJobThatDoesntVoteDecidesNothing};
ghost use Rattle.gate_laws.specs.LandingExamples.{ALandingKeepsTheBuildsBehindIt, AShownOrderIsLeftAlone};
ghost use Rattle.gate_laws.specs.LandingExamples.{TheWindowGrowsBeforeItShrinks, EachQueueShowsItsOrder};
ghost use Rattle.gate_laws.specs.NeedExamples.{ANeedAdmitsTheWaitingChange, ACycleWaits};
ghost use Rattle.gate_laws.specs.NeedExamples.{ANeedInAnotherQueueLandsFirst, AnItemGoesWithItsNeed};
ghost use Rattle.gate_laws.specs.NeedExamples.{AdmissionStartsAnew, FootersNameNeeds, AtMost32NeedsAreTaken};
ghost use Rattle.gate_laws.specs.AdoptionExamples.{AnItemKeepsItsJobs, AWindowIsAdopted, ARuleIsAdopted};
ghost use Rattle.gate_laws.specs.AdoptionExamples.{AnItemKeepsFailFast};
ghost use Rattle.gate_laws.specs.LimitExamples.{OrdersRunOut, ALandingThatAdmitsRunsOut, BuildsAndApprovalsRunOut};
ghost use Rattle.gate_laws.specs.LimitExamples.{TheWindowAtItsEnds, AWindowChangesByItsRule, AWindowOf0SetsNoBound};

/// A repeat of a delivery gets the reply that was kept, and makes no second item.
pub fn a_repeat_gets_the_kept_reply()
    ensures { ARepeatGetsTheKeptReply }
{}

/// An id that was spent on a delivery is refused with any other, and still answers its own.
pub fn a_spent_id_serves_nothing_else()
    ensures { ASpentIdServesNothingElse }
{}

/// 101 is approved before it is known, which is refused. Once it is known, the same delivery under
/// the same id acts.
pub fn a_refusal_spends_no_id()
    ensures { ARefusalSpendsNoId }
{}

/// A call that was answered `unavailable` has changed nothing, and acts when it comes again.
pub fn an_unavailable_call_may_come_again()
    ensures { AnUnavailableCallMayComeAgain }
{}

/// 101 and 102 stand in the queue when a second revision of 101 comes: its item leaves, the old
/// approval is stale, and a new one puts it behind 102.
pub fn a_revision_supersedes()
    ensures { ARevisionSupersedes }
{}

/// Three items behind a window of 2: workers get the jobs of the first, then of the second, and the
/// third waits.
pub fn builds_are_given_front_to_back()
    ensures { BuildsAreGivenFrontToBack }
{}

/// The first item fails while the second is tested behind it: the second is built again without the
/// first, and its earlier build's result comes too late.
pub fn a_failure_resets_the_items_behind_it()
    ensures { AFailureResetsTheItemsBehindIt }
{}

/// The second item fails behind the first and stays, since it might pass without the first. The first
/// is withdrawn, and the second starts anew.
pub fn a_failure_behind_an_item_stays()
    ensures { AFailureBehindAnItemStays }
{}

/// The settings' text tells which projects are to fail fast.
pub fn fail_fast_is_told()
    ensures { FailFastIsTold }
{}

/// A voting job of the first item fails while another job runs: where its project is to fail fast, the item
/// leaves at once.
pub fn a_fast_failure_goes_at_once()
    ensures { AFastFailureGoesAtOnce }
{}

/// A voting job of an item behind another fails: its other job is skipped and its running build stops. When
/// the item before it fails too, all its jobs wait anew.
pub fn a_fast_failure_behind_an_item_skips()
    ensures { AFastFailureBehindAnItemSkips }
{}

/// A job that doesn't vote fails: nothing is skipped.
pub fn a_job_that_doesnt_vote_skips_nothing()
    ensures { AJobThatDoesntVoteSkipsNothing }
{}

/// The only build of an item is lost three times: the item leaves as failed.
pub fn a_lost_build_is_tried_three_times()
    ensures { ALostBuildIsTriedThreeTimes }
{}

/// Two builds are lost behind 101, which fails, and a third without 101: the job is tried again.
pub fn losses_on_two_lines_arent_added()
    ensures { LossesOnTwoLinesArentAdded }
{}

/// The first item has failed and waits for its last job. The second is shown to the forge and lands;
/// then the first leaves as failed.
pub fn an_item_lands_before_a_failing_one()
    ensures { AnItemLandsBeforeAFailingOne }
{}

/// The job that doesn't vote fails: the item waits for the other, and lands when that has passed.
pub fn a_job_that_doesnt_vote_decides_nothing()
    ensures { AJobThatDoesntVoteDecidesNothing }
{}

/// The first item lands while the second is tested behind it: that build's success lands the second.
pub fn a_landing_keeps_the_builds_behind_it()
    ensures { ALandingKeepsTheBuildsBehindIt }
{}

/// The order of 101 is shown to the forge: withdrawing and revising it are refused until the forge has
/// refused the order, and the same ids serve then.
pub fn a_shown_order_is_left_alone()
    ensures { AShownOrderIsLeftAlone }
{}

/// Two failed items wait behind one that lands: the window of 6 grows to 7 by the landing, then halves
/// to 3 and to 1 by the failures.
pub fn the_window_grows_before_it_shrinks()
    ensures { TheWindowGrowsBeforeItShrinks }
{}

/// A change of either queue has passed: both orders are shown, in the order of the settings.
pub fn each_queue_shows_its_order()
    ensures { EachQueueShowsItsOrder }
{}

/// 102 needs 101 and is approved first: it waits. The approval of 101 lets both in, 101 before 102.
pub fn a_need_admits_the_waiting_change()
    ensures { ANeedAdmitsTheWaitingChange }
{}

/// Two changes need each other and one needs itself: all three wait for good.
pub fn a_cycle_waits()
    ensures { ACycleWaits }
{}

/// 301 needs 101 of another queue: it waits until 101 has landed, then enters its own queue.
pub fn a_need_in_another_queue_lands_first()
    ensures { ANeedInAnotherQueueLandsFirst }
{}

/// 102 needs 101, which fails: 102 is blocked, and leaves with 101. The window is halved once, and 102
/// may only wait when it is approved again.
pub fn an_item_goes_with_its_need()
    ensures { AnItemGoesWithItsNeed }
{}

/// 103 needs 102, which needs 101. They are approved in this order, and the last approval lets in all
/// three, each behind its need.
pub fn admission_starts_anew()
    ensures { AdmissionStartsAnew }
{}

/// Which lines of a message name a needed change, and which are ignored.
pub fn footers_name_needs()
    ensures { FootersNameNeeds }
{}

/// A message may name 32 different changes, and not 33.
pub fn at_most_32_needs_are_taken()
    ensures { AtMost32NeedsAreTaken }
{}

/// The last order has the number 10^15. An approval that would draw one more is refused and changes
/// nothing; one that only waits isn't.
pub fn orders_run_out()
    ensures { OrdersRunOut }
{}

/// A landing that would admit a waiting change past the last order is refused.
pub fn a_landing_that_admits_runs_out()
    ensures { ALandingThatAdmitsRunsOut }
{}

/// The last build has the number 10^15, and so has the last approval.
pub fn builds_and_approvals_run_out()
    ensures { BuildsAndApprovalsRunOut }
{}

/// How the window grows and shrinks at its ends.
pub fn the_window_at_its_ends()
    ensures { TheWindowAtItsEnds }
{}

/// A window changes by its queue's rule.
pub fn a_window_changes_by_its_rule()
    ensures { AWindowChangesByItsRule }
{}

/// Behind a window of 0 every item gets builds, and failures leave it 0.
pub fn a_window_of_0_sets_no_bound()
    ensures { AWindowOf0SetsNoBound }
{}

/// `docs` of 101 fail once the settings let `docs` vote: 101 was admitted before that, and lands. 103 is admitted after
/// it, and fails.
pub fn an_item_keeps_its_jobs()
    ensures { AnItemKeepsItsJobs }
{}

/// A queue takes a window that is another in the settings, and back. Settings without one of the queues change nothing.
pub fn a_window_is_adopted()
    ensures { AWindowIsAdopted }
{}

/// A queue whose rule alone is another in the settings keeps its window, and opens it by the new rule from then on.
pub fn a_rule_is_adopted()
    ensures { ARuleIsAdopted }
{}

/// An item fails fast if its project did when it was admitted, whatever the settings say since.
pub fn an_item_keeps_fail_fast()
    ensures { AnItemKeepsFailFast }
{}
