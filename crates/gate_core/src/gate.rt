//! The gate: each delivery is exactly one step of the plain gate.
ghost use Rattle.std.specs.Prelude.{◌≡◌, ◌⊎◌, false, true, None, Some, option_map, string_bytes};
ghost use Rattle.std.specs.Prelude.{IfOk, IfErr, OnOk, MatchResult};
ghost use Rattle.gate_types.specs.BuildText.{build_text};
ghost use Rattle.gate_types.specs.Once.{Content, empty, is_unavailable};
ghost use Rattle.gate_types.specs.OrderList.{order_list_text};
ghost use Rattle.gate_types.specs.Status.{status_text};
ghost use Rattle.gate_types.specs.Step.{build_of};
ghost use Rattle.gate_types.specs.Tap.{has_failed};
ghost use Rattle.gate_book_trait.specs.Writes.{WritesHistory, StopsHistoryWriter};
ghost use Rattle.gate_core.specs.Answered.{Answered, call};
ghost use Rattle.gate_core.specs.Holding.{GateHolds, IsKeptGate, IsNew, OfBook, OfGate};
ghost use Rattle.gate_core.specs.Holding.{book_of, recent_of, settings_of};
ghost use Rattle.gate_core.specs.Landing.{LandsRightly};
ghost use Rattle.gate_core.specs.Recent.{AfterFault, AfterRefusal, KeepsButOrders, KeepsButStatus, KeepsNothing};

use crate::delivering::deliver;
use crate::recent::Recent;
use gate_book_trait::{Book, HistoryFault};
use gate_laws::orders;
use gate_texts::{build_text, order_list, status};
use gate_types::config::Config;
use gate_types::deliveries::{Answer, Delivery, Refusal};
use gate_types::numbers::BuildNo;
use gate_types::records::Id;
use gate_types::tap::Tap;
use std::alloc::Global;
use std::io::Write;

/// A gate over a book, under its settings. What it last said is said again while nothing has changed: the status, the
/// orders, and that there is no build for a worker. After a fault of the book it is asked anew, so that a gate whose
/// file is shut says so to each poll.
#[derive(Drop)]
pub struct Gate<B> {
    pub(crate) config: Config,
    pub(crate) book: B,
    pub(crate) recent: Recent,
}

impl<B> Gate<B> {
    /// The settings that it goes by.
    pub fn config(&self) -> &Config
        ensures { result.now ≡ settings_of self.now }
    {
        &self.config
    }

    /// Its book, which only the gate may edit: what it said is said again until a call of its own changes something.
    pub fn book(&self) -> &B
        ensures { result.now ≡ book_of self.now }
    {
        &self.book
    }

    /// Gives the book back.
    pub fn into_book(self) -> B
        ensures { result ≡ book_of self }
    {
        let Gate { book, .. } = self;
        book
    }
}

impl<B: Book> Gate<B> {
    /// A gate under these settings, over a book that was made under them.
    pub fn new(config: Config, book: B) -> Gate<B>
        ensures config { settings_of result ≡ config }
        ensures book { book_of result ≡ book }
        ensures holds { (x : Content) → B.Holds book config x → GateHolds B.Holds result x }
        ensures anew { B.Holds book config (empty config) → IsNew B.Holds result }
    {
        Gate {
            config,
            book,
            recent: Recent::new(),
        }
    }

    /// The answer to a delivery. A first accepted delivery spends its id and its reply is kept; a spent id gets the
    /// kept reply again if the delivery is the same, and `id-reused` if it is another one. After a refusal nothing has
    /// changed; `unavailable` comes only where the book gave a fault or memory was refused.
    pub fn deliver(&mut self, alloc: Global, id: Id, delivery: Delivery) -> Answer
        ensures answered { OfGate B.IsTrusted B.Holds self.old self.new (λ x.
            Answered (settings_of self.old) x (call id delivery (is_unavailable result)) result
            (GateHolds B.Holds self.new) (B.LeavesOneOf (book_of self.old) (settings_of self.old))
            (B.LeavesOneOf (book_of self.new) (settings_of self.old))) }
        ensures lands { OfGate B.IsTrusted B.Holds self.old self.new (λ x.
            LandsRightly (settings_of self.old) x (call id delivery (is_unavailable result)) result) }
        ensures forgets { OfGate B.IsTrusted B.Holds self.old self.new (λ _.
            is_unavailable result ≡ true → KeepsNothing (recent_of self.new)) }
        ensures trusted { B.IsTrusted (book_of self.new) → B.IsTrusted (book_of self.old) }
        ensures settings { settings_of self.new ≡ settings_of self.old }
    {
        let config = &self.config;
        config.show_sound();
        orders::a_shown_order_stays();
        orders::only_shown_orders_are_answered();
        deliver(
            alloc,
            &mut self.book,
            &mut self.recent,
            config,
            id,
            &delivery,
        )
    }

    /// The orders that are shown, as JSON; the text that was last made, where no delivery was accepted since.
    ///
    /// # Errors
    ///
    /// `Unavailable` where the book gave a fault or memory was refused.
    pub fn orders(&mut self, alloc: Global) -> Result<String, Refusal>
        ensures text { OfGate B.IsTrusted B.Holds self.old self.new (λ x.
            IfOk result (λ text. string_bytes text ≡ order_list_text (settings_of self.old) x.state)) }
        ensures unavailable { IfErr result (λ r. r ≡ Refusal.Unavailable) }
        ensures forgets { IfErr result (λ _. KeepsNothing (recent_of self.new)) }
        ensures keeps { OnOk result (KeepsButOrders (recent_of self.old) (recent_of self.new)) }
        ensures kept { IsKeptGate B.IsTrusted B.Holds B.LeavesOneOf self.old self.new }
        ensures settings { settings_of self.new ≡ settings_of self.old }
    {
        if let Some(text) = self.recent.orders() {
            return Ok(text.into_string());
        }
        match order_list(alloc, &mut self.book, &self.config) {
            Ok(text) => {
                self.recent.keep_orders(&text);
                Ok(text.into_string())
            }
            Err(_) => {
                self.recent.clear();
                Err(Refusal::Unavailable)
            }
        }
    }

    /// The build of a number, as JSON.
    ///
    /// # Errors
    ///
    /// `UnknownBuild` where there is none of this number; `Unavailable` where the book gave a fault or memory was
    /// refused.
    pub fn build(&mut self, alloc: Global, number: BuildNo) -> Result<String, Refusal>
        ensures answered { OfBook B.IsTrusted B.Holds self.old self.new (λ x.
            MatchResult result (λ text. option_map build_text (build_of x.state number) ≡ Some (string_bytes text))
            (λ r. (r ≡ Refusal.Unavailable) ⊎ ((r ≡ Refusal.UnknownBuild) × (build_of x.state number ≡ None)))) }
        ensures refused { IfErr result (λ r. (r ≡ Refusal.Unavailable) ⊎ (r ≡ Refusal.UnknownBuild)) }
        ensures recent { MatchResult result (λ _. recent_of self.new ≡ recent_of self.old)
            (AfterRefusal (recent_of self.old) (recent_of self.new)) }
        ensures kept { IsKeptGate B.IsTrusted B.Holds B.LeavesOneOf self.old self.new }
        ensures settings { settings_of self.new ≡ settings_of self.old }
    {
        match build_text(alloc, &mut self.book, number) {
            Ok(Some(text)) => Ok(text.into_string()),
            Ok(None) => Err(Refusal::UnknownBuild),
            Err(_) => {
                self.recent.clear();
                Err(Refusal::Unavailable)
            }
        }
    }

    /// The status text; that which was last made, where no delivery was accepted since.
    ///
    /// # Errors
    ///
    /// `Unavailable` where the book gave a fault or memory was refused.
    pub fn status(&mut self, alloc: Global) -> Result<String, Refusal>
        ensures text { OfGate B.IsTrusted B.Holds self.old self.new (λ x.
            IfOk result (λ text. string_bytes text ≡ status_text (settings_of self.old) x.state)) }
        ensures unavailable { IfErr result (λ r. r ≡ Refusal.Unavailable) }
        ensures forgets { IfErr result (λ _. KeepsNothing (recent_of self.new)) }
        ensures keeps { OnOk result (KeepsButStatus (recent_of self.old) (recent_of self.new)) }
        ensures kept { IsKeptGate B.IsTrusted B.Holds B.LeavesOneOf self.old self.new }
        ensures settings { settings_of self.new ≡ settings_of self.old }
    {
        if let Some(text) = self.recent.status() {
            return Ok(text.into_string());
        }
        match status(alloc, &mut self.book, &self.config) {
            Ok(text) => {
                self.recent.keep_status(&text);
                Ok(text.into_string())
            }
            Err(_) => {
                self.recent.clear();
                Err(Refusal::Unavailable)
            }
        }
    }

    /// Writes the front and then the history text of a queue.
    ///
    /// # Errors
    ///
    /// `NoQueue` where no queue has the name, and `Unavailable` where the book gave a fault or memory was refused:
    /// nothing was written. `Broken` where such a fault came later, and `Write` where the writer failed: a beginning
    /// was written.
    pub fn history<W: Write>(
        &mut self,
        queue: &str,
        front: &[u8],
        w: &mut Tap<W>,
    ) -> Result<(), HistoryFault>
        requires { has_failed w.old ≡ false }
        ensures written { OfBook B.IsTrusted B.Holds self.old self.new (λ x.
            WritesHistory x.state queue.now front.now W.contents w.old w.new result) }
        ensures stops { StopsHistoryWriter w.old w.new result }
        ensures recent { MatchResult result (λ _. recent_of self.new ≡ recent_of self.old)
            (AfterFault (recent_of self.old) (recent_of self.new)) }
        ensures kept { IsKeptGate B.IsTrusted B.Holds B.LeavesOneOf self.old self.new }
        ensures settings { settings_of self.new ≡ settings_of self.old }
    {
        let told = self.book.history(queue, front, w);
        self.recent.heed_history(&told);
        told
    }
}
