//! The words that texts and tables have for truths and for what the gate's enums say.
ghost use Rattle.std.specs.Prelude.{◌≡◌, None, Some, IfSome, codes, if◌then◌else◌};

use crate::deliveries::Ending;
use crate::edits::Counter;
use crate::records::{Outcome, Stage, Verdict};

/// `true` or `false`.
pub fn truth_word(truth: bool) -> &'static str
    ensures { result.now ≡ (if truth then codes "true" else codes "false") }
{
    if truth { "true" } else { "false" }
}

impl Outcome {
    ghost use Rattle.gate_types.specs.BuildText.{outcome_word};

    /// How far a build has come, in a word.
    pub fn word(self) -> &'static str
        ensures { result.now ≡ outcome_word self }
    {
        match self {
            Outcome::Running => "running",
            Outcome::Success => "success",
            Outcome::Failure => "failure",
            Outcome::Lost => "lost",
        }
    }

    /// The outcome of a word; None where no outcome has it.
    pub fn of_word(word: &[u8]) -> Option<Outcome>
        ensures told { (outcome : _) → word.now ≡ outcome_word outcome → result ≡ Some outcome }
        ensures form { IfSome result (λ outcome. word.now ≡ outcome_word outcome) }
    {
        if word == b"running".as_slice() {
            Some(Outcome::Running)
        } else if word == b"success".as_slice() {
            Some(Outcome::Success)
        } else if word == b"failure".as_slice() {
            Some(Outcome::Failure)
        } else if word == b"lost".as_slice() {
            Some(Outcome::Lost)
        } else {
            None
        }
    }
}

impl Verdict {
    ghost use Rattle.gate_types.specs.History.{verdict_word, landing_place};

    /// Why an item left, in a word. The place of a landing is not in it.
    pub fn word(self) -> &'static str
        ensures { result.now ≡ verdict_word self }
    {
        match self {
            Verdict::Landed(_) => "landed",
            Verdict::Failed => "failed",
            Verdict::Refused => "refused",
            Verdict::Needs => "needs",
            Verdict::Superseded => "superseded",
            Verdict::Withdrawn => "withdrawn",
            Verdict::Closed => "closed",
        }
    }

    /// The verdict of a word, with the place of a landing; None where no verdict has both.
    pub fn of_word(word: &[u8], place: Option<u64>) -> Option<Verdict>
        ensures told { (verdict : _) → word.now ≡ verdict_word verdict → place ≡ landing_place verdict →
            result ≡ Some verdict }
        ensures form { IfSome result (λ verdict. (word.now ≡ verdict_word verdict) × (place ≡ landing_place verdict)) }
    {
        match place {
            Some(place) => (word == b"landed".as_slice()).then_some(Verdict::Landed(place)),
            None => Verdict::of_word_alone(word),
        }
    }

    /// The verdict of a word, but for that of a landing.
    fn of_word_alone(word: &[u8]) -> Option<Verdict>
        ensures told { (verdict : _) → word.now ≡ verdict_word verdict → landing_place verdict ≡ None →
            result ≡ Some verdict }
        ensures form { IfSome result (λ verdict. (word.now ≡ verdict_word verdict) × (landing_place verdict ≡ None)) }
    {
        if word == b"failed".as_slice() {
            Some(Verdict::Failed)
        } else if word == b"refused".as_slice() {
            Some(Verdict::Refused)
        } else if word == b"needs".as_slice() {
            Some(Verdict::Needs)
        } else if word == b"superseded".as_slice() {
            Some(Verdict::Superseded)
        } else if word == b"withdrawn".as_slice() {
            Some(Verdict::Withdrawn)
        } else if word == b"closed".as_slice() {
            Some(Verdict::Closed)
        } else {
            None
        }
    }
}

impl Stage {
    ghost use Rattle.gate_types.specs.Words.{stage_word};

    /// What has become of a change, in a word.
    pub fn word(self) -> &'static str
        ensures { result.now ≡ stage_word self }
    {
        match self {
            Stage::Open => "open",
            Stage::Landed => "landed",
            Stage::Closed => "closed",
        }
    }

    /// The stage of a word; None where no stage has it.
    pub fn of_word(word: &[u8]) -> Option<Stage>
        ensures told { (stage : _) → word.now ≡ stage_word stage → result ≡ Some stage }
        ensures form { IfSome result (λ stage. word.now ≡ stage_word stage) }
    {
        if word == b"open".as_slice() {
            Some(Stage::Open)
        } else if word == b"landed".as_slice() {
            Some(Stage::Landed)
        } else if word == b"closed".as_slice() {
            Some(Stage::Closed)
        } else {
            None
        }
    }
}

impl Counter {
    ghost use Rattle.gate_types.specs.Words.{counter_word};

    /// The counter's name in its table.
    pub fn word(self) -> &'static str
        ensures { result.now ≡ counter_word self }
    {
        match self {
            Counter::Approval => "approval",
            Counter::Build => "build",
            Counter::Order => "order",
        }
    }
}

impl Ending {
    ghost use Rattle.gate_types.specs.Canonical.{ending_word};

    /// How a build ended, in a word.
    pub fn word(self) -> &'static str
        ensures { result.now ≡ ending_word self }
    {
        match self {
            Ending::Success => "success",
            Ending::Failure => "failure",
            Ending::Lost => "lost",
        }
    }

    /// The ending of a word; None where no ending has it.
    pub fn of_word(word: &[u8]) -> Option<Ending>
        ensures told { (ending : _) → word.now ≡ ending_word ending → result ≡ Some ending }
        ensures form { IfSome result (λ ending. word.now ≡ ending_word ending) }
    {
        if word == b"success".as_slice() {
            Some(Ending::Success)
        } else if word == b"failure".as_slice() {
            Some(Ending::Failure)
        } else if word == b"lost".as_slice() {
            Some(Ending::Lost)
        } else {
            None
        }
    }
}
