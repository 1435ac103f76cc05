//! The answer to a delivery.
ghost use Rattle.std.specs.Prelude.{◌≡◌, None, true, false, IfOk, IfErr, OnErr, OnOk};
ghost use Rattle.gate_types.specs.declared.deliveries.Answer.TheVariants as answers;
ghost use Rattle.gate_types.specs.Canonical.{canonical_text};
ghost use Rattle.gate_types.specs.Once.{kept_for, kept_answer, next_content, is_unavailable};
ghost use Rattle.gate_book_trait.specs.Faults.{MayAnswer};
ghost use Rattle.gate_book_trait.specs.Kept.{OfHeldUnder};
ghost use Rattle.gate_ruling.specs.Faults.{MayRule};
ghost use Rattle.gate_core.specs.Answered.{Answered, call};
ghost use Rattle.gate_core.specs.Recent.{IsTrueOf, KeepsNothing};

use crate::accepting::accept;
use crate::recent::Recent;
use crate::ruled::{Ruled, rule};
use gate_book_trait::{Book, BookFault};
use gate_laws::{forms, typed};
use gate_types::canonical::canonical;
use gate_types::config::Config;
use gate_types::deliveries::{Answer, Delivery, Refusal};
use gate_types::names::Text;
use gate_types::records::{Id, Kept};
use std::alloc::Global;

/// The answer to a delivery. A first accepted delivery spends its id and its reply is kept; a spent id gets the kept
/// reply again if the delivery is the same, and `id-reused` if it is another one. After a refusal nothing has changed;
/// `unavailable` comes only where the book gave a fault or memory was refused. Nothing is kept of what was said before
/// where the delivery is accepted, or `unavailable` is answered.
pub fn deliver<B: Book>(
    alloc: Global,
    book: &mut B,
    recent: &mut Recent,
    config: &Config,
    id: Id,
    delivery: &Delivery,
) -> Answer
    ensures answered { OfHeldUnder B.IsTrusted B.Holds book.old book.new config.now (λ x.
        IsTrueOf recent.old config.now x →
        Answered config.now x (call id delivery.now (is_unavailable result)) result
        (B.Holds book.new config.now) (B.LeavesOneOf book.old config.now) (B.LeavesOneOf book.new config.now)) }
    ensures recent { OfHeldUnder B.IsTrusted B.Holds book.old book.new config.now (λ x.
        IsTrueOf recent.old config.now x → IsTrueOf recent.new config.now
        (next_content config.now x (call id delivery.now (is_unavailable result)))) }
    ensures forgets { OfHeldUnder B.IsTrusted B.Holds book.old book.new config.now (λ _.
        is_unavailable result ≡ true → KeepsNothing recent.new) }
    ensures trusted { B.IsTrusted book.new → B.IsTrusted book.old }
{
    match answer(alloc, book, recent, config, id, delivery) {
        Ok(answer) => answer,
        Err(_) => {
            recent.clear();
            Answer::Refused(Refusal::Unavailable)
        }
    }
}

/// The answer to a delivery, or why it is answered `unavailable`.
fn answer<B: Book>(
    alloc: Global,
    book: &mut B,
    recent: &mut Recent,
    config: &Config,
    id: Id,
    delivery: &Delivery,
) -> Result<Answer, BookFault>
    ensures ok { OfHeldUnder B.IsTrusted B.Holds book.old book.new config.now (λ x.
        IsTrueOf recent.old config.now x →
        IfOk result (λ a. Answered config.now x (call id delivery.now false) a
        (B.Holds book.new config.now) (B.LeavesOneOf book.old config.now) (B.LeavesOneOf book.new config.now))) }
    ensures err { OfHeldUnder B.IsTrusted B.Holds book.old book.new config.now (λ x.
        OnErr result (Answered config.now x (call id delivery.now true) (answers.Refused Refusal.Unavailable)
        (B.Holds book.new config.now) (B.LeavesOneOf book.old config.now) (B.LeavesOneOf book.new config.now))) }
    ensures told { OfHeldUnder B.IsTrusted B.Holds book.old book.new config.now (λ x.
        IfOk result (λ a. is_unavailable a ≡ false)) }
    ensures recent { OfHeldUnder B.IsTrusted B.Holds book.old book.new config.now (λ x.
        IsTrueOf recent.old config.now x → OnOk result (IsTrueOf recent.new config.now
        (next_content config.now x (call id delivery.now false)))) }
    ensures trusted { B.IsTrusted book.new → B.IsTrusted book.old }
    ensures fault { IfErr result (MayRule B.MayFault) }
    ensures undamaged { OfHeldUnder B.IsTrusted B.Holds book.old book.new config.now (λ x.
        IfErr result (MayAnswer B.MayFault)) }
{
    let said = canonical(alloc, delivery)?;
    match book.delivery(&id)? {
        Some(kept) => Ok(answer_again(kept, said.as_str())),
        None => act(alloc, book, recent, config, id, Text::new(said), delivery),
    }
}

/// The kept reply to the delivery that it was made for; another delivery is refused.
fn answer_again(kept: Kept, said: &str) -> Answer
    ensures answer { result ≡ kept_answer said.now kept }
    ensures told { is_unavailable result ≡ false }
{
    let Kept {
        id: _,
        said: before,
        reply,
    } = kept;
    if before.as_str() == said {
        Answer::Said(reply)
    } else {
        Answer::Refused(Refusal::IdReused)
    }
}

/// The answer to a delivery under a new id.
fn act<B: Book>(
    alloc: Global,
    book: &mut B,
    recent: &mut Recent,
    config: &Config,
    id: Id,
    said: Text,
    delivery: &Delivery,
) -> Result<Answer, BookFault>
    requires { said ≡ canonical_text delivery.now }
    ensures ok { OfHeldUnder B.IsTrusted B.Holds book.old book.new config.now (λ x. kept_for id x.kept ≡ None →
        IsTrueOf recent.old config.now x → IfOk result (λ a. Answered config.now x (call id delivery.now false) a
        (B.Holds book.new config.now) (B.LeavesOneOf book.old config.now) (B.LeavesOneOf book.new config.now))) }
    ensures err { OfHeldUnder B.IsTrusted B.Holds book.old book.new config.now (λ x. kept_for id x.kept ≡ None →
        OnErr result (Answered config.now x (call id delivery.now true) (answers.Refused Refusal.Unavailable)
        (B.Holds book.new config.now) (B.LeavesOneOf book.old config.now) (B.LeavesOneOf book.new config.now))) }
    ensures told { OfHeldUnder B.IsTrusted B.Holds book.old book.new config.now (λ x. kept_for id x.kept ≡ None →
        IfOk result (λ a. is_unavailable a ≡ false)) }
    ensures recent { OfHeldUnder B.IsTrusted B.Holds book.old book.new config.now (λ x. kept_for id x.kept ≡ None →
        IsTrueOf recent.old config.now x → OnOk result (IsTrueOf recent.new config.now
        (next_content config.now x (call id delivery.now false)))) }
    ensures trusted { B.IsTrusted book.new → B.IsTrusted book.old }
    ensures fault { IfErr result (MayRule B.MayFault) }
    ensures undamaged { OfHeldUnder B.IsTrusted B.Holds book.old book.new config.now (λ x.
        IfErr result (MayAnswer B.MayFault)) }
{
    config.show_sound();
    typed::settings_are_in_form(config);
    typed::delivery_is_in_form(delivery);
    typed::id_is_in_form(&id);
    forms::next_content_is_lawful();
    if recent.refuses(delivery) {
        return Ok(Answer::Refused(Refusal::Idle));
    }
    match rule(alloc, book, config, delivery)? {
        Ruled::Refused(refusal) => {
            recent.keep_refusal(delivery, refusal);
            Ok(Answer::Refused(refusal))
        }
        Ruled::Accepted(reply, edits) => {
            recent.clear();
            accept(alloc, book, id, said, &reply, edits)
        }
    }
}
