//! What a gate that runs is asked beside its status: reads alone.
ghost use Rattle.std.specs.Prelude.{◌≡◌, ◌⊎◌, [], false, None, Some, option_map, IfOk, IfErr, MatchResult};
ghost use Rattle.std.specs.Prelude.{string_bytes};
ghost use Rattle.gate_types.specs.State.{known_change};
ghost use Rattle.gate_types.specs.Tap.{has_failed};
ghost use Rattle.gate_book_trait.specs.Writes.{StopsHistoryWriter};
ghost use Rattle.gate_archive.specs.ChangeText.{change_text};
ghost use Rattle.gate_archive.specs.ItemText.{item_text};
ghost use Rattle.gate_archive.specs.RunningBuilds.{running_text};
ghost use Rattle.gate_archive.specs.Writes.{WritesHistoryFrom, WritesFeed, StopsFeed, WritesFeedText, StopsText};
ghost use Rattle.gate_core.specs.Holding.{IsKeptGate, OfBook, recent_of, settings_of};
ghost use Rattle.gate_core.specs.Recent.{AfterFault, AfterFeedFault, AfterRefusal};

use crate::gate::Gate;
use gate_archive::{Archive, FeedFault, write_feed};
use gate_book_trait::HistoryFault;
use gate_texts::{change_text, item_text, running_text};
use gate_types::deliveries::Refusal;
use gate_types::numbers::{ChangeNo, Serial};
use gate_types::records::Id;
use gate_types::tap::Tap;
use std::alloc::Global;
use std::io::Write;

/// More than were ever accepted, since each was told to a program.
const ALL: u64 = u64::MAX;

impl<B: Archive> Gate<B> {
    /// What is known of a change, as JSON.
    ///
    /// # Errors
    ///
    /// `UnknownChange` where no revision of it was accepted; `Unavailable` where the book gave a fault or memory was
    /// refused.
    pub fn change(&mut self, alloc: Global, number: ChangeNo) -> Result<String, Refusal>
        ensures answered { OfBook B.IsTrusted B.Holds self.old self.new (λ x.
            MatchResult result
            (λ text. option_map (change_text (settings_of self.old) x.state) (known_change x.state number)
            ≡ Some (string_bytes text))
            (λ r. (r ≡ Refusal.Unavailable)
            ⊎ ((r ≡ Refusal.UnknownChange) × (known_change x.state number ≡ None)))) }
        ensures refused { IfErr result (λ r. (r ≡ Refusal.Unavailable) ⊎ (r ≡ Refusal.UnknownChange)) }
        ensures recent { MatchResult result (λ _. recent_of self.new ≡ recent_of self.old)
            (AfterRefusal (recent_of self.old) (recent_of self.new)) }
        ensures kept { IsKeptGate B.IsTrusted B.Holds B.LeavesOneOf self.old self.new }
        ensures settings { settings_of self.new ≡ settings_of self.old }
    {
        match change_text(alloc, &mut self.book, &self.config, number) {
            Ok(Some(text)) => Ok(text.into_string()),
            Ok(None) => Err(Refusal::UnknownChange),
            Err(_) => {
                self.recent.clear();
                Err(Refusal::Unavailable)
            }
        }
    }

    /// The item of a serial, queued or gone, with its builds, as JSON; None where no item ever had it.
    ///
    /// # Errors
    ///
    /// `Unavailable` where the book gave a fault or memory was refused.
    pub fn item(&mut self, alloc: Global, serial: Serial) -> Result<Option<String>, Refusal>
        ensures text { OfBook B.IsTrusted B.Holds self.old self.new (λ x.
            IfOk result (λ found. option_map string_bytes found ≡ item_text (settings_of self.old) x.state serial)) }
        ensures unavailable { IfErr result (λ r. r ≡ Refusal.Unavailable) }
        ensures recent { MatchResult result (λ _. recent_of self.new ≡ recent_of self.old)
            (AfterRefusal (recent_of self.old) (recent_of self.new)) }
        ensures kept { IsKeptGate B.IsTrusted B.Holds B.LeavesOneOf self.old self.new }
        ensures settings { settings_of self.new ≡ settings_of self.old }
    {
        match item_text(alloc, &mut self.book, &self.config, serial) {
            Ok(Some(text)) => Ok(Some(text.into_string())),
            Ok(None) => Ok(None),
            Err(_) => {
                self.recent.clear();
                Err(Refusal::Unavailable)
            }
        }
    }

    /// The builds that run, as JSON.
    ///
    /// # Errors
    ///
    /// `Unavailable` where the book gave a fault or memory was refused.
    pub fn running(&mut self, alloc: Global) -> Result<String, Refusal>
        ensures text { OfBook B.IsTrusted B.Holds self.old self.new (λ x.
            IfOk result (λ text. string_bytes text ≡ running_text x.state)) }
        ensures unavailable { IfErr result (λ r. r ≡ Refusal.Unavailable) }
        ensures recent { MatchResult result (λ _. recent_of self.new ≡ recent_of self.old)
            (AfterRefusal (recent_of self.old) (recent_of self.new)) }
        ensures kept { IsKeptGate B.IsTrusted B.Holds B.LeavesOneOf self.old self.new }
        ensures settings { settings_of self.new ≡ settings_of self.old }
    {
        match running_text(alloc, &mut self.book, &self.config) {
            Ok(text) => Ok(text.into_string()),
            Err(_) => {
                self.recent.clear();
                Err(Refusal::Unavailable)
            }
        }
    }

    /// Writes the front and then the history text of a queue from a place on, at most 1,000 reports.
    ///
    /// # Errors
    ///
    /// `NoQueue` where no queue has the name, and `Unavailable` where the book gave a fault or memory was refused:
    /// nothing was written. `Broken` where such a fault came later, and `Write` where the writer failed: a beginning
    /// was written.
    pub fn history_from<W: Write>(
        &mut self,
        queue: &str,
        from: u64,
        front: &[u8],
        w: &mut Tap<W>,
    ) -> Result<(), HistoryFault>
        requires { has_failed w.old ≡ false }
        ensures written { OfBook B.IsTrusted B.Holds self.old self.new (λ x.
            WritesHistoryFrom x.state queue.now from front.now W.contents w.old w.new result) }
        ensures stops { StopsHistoryWriter w.old w.new result }
        ensures recent { MatchResult result (λ _. recent_of self.new ≡ recent_of self.old)
            (AfterFault (recent_of self.old) (recent_of self.new)) }
        ensures kept { IsKeptGate B.IsTrusted B.Holds B.LeavesOneOf self.old self.new }
        ensures settings { settings_of self.new ≡ settings_of self.old }
    {
        let told = self.book.history_from(queue, from, front, w);
        self.recent.heed_history(&told);
        told
    }

    /// Writes the front and then the text of accepted deliveries, from the first on or behind that of an id, at most
    /// 1,000 of them.
    ///
    /// # Errors
    ///
    /// `NoDelivery` where no accepted delivery has the id, and `Unavailable` where the book gave a fault or memory was
    /// refused: nothing was written. `Broken` where such a fault came later, and `Write` where the writer failed: a
    /// beginning was written.
    pub fn feed<W: Write>(
        &mut self,
        alloc: Global,
        after: Option<Id>,
        front: &[u8],
        w: &mut Tap<W>,
    ) -> Result<(), FeedFault>
        requires { has_failed w.old ≡ false }
        ensures written { OfBook B.IsTrusted B.Holds self.old self.new (λ x.
            WritesFeedText x.kept after front.now W.contents w.old w.new result) }
        ensures stops { StopsText w.old w.new result }
        ensures recent { MatchResult result (λ _. recent_of self.new ≡ recent_of self.old)
            (AfterFeedFault (recent_of self.old) (recent_of self.new)) }
        ensures kept { IsKeptGate B.IsTrusted B.Holds B.LeavesOneOf self.old self.new }
        ensures settings { settings_of self.new ≡ settings_of self.old }
    {
        let told = write_feed(alloc, &mut self.book, after, front, w);
        self.recent.heed_feed(&told);
        told
    }

    /// Writes the lines of all accepted deliveries, from the first on or behind that of an id, and tells how many they
    /// are.
    ///
    /// # Errors
    ///
    /// As those of `feed`, but of `Broken` and `Write` some first bytes were written, or all.
    pub fn deliveries<W: Write>(
        &mut self,
        after: Option<Id>,
        w: &mut Tap<W>,
    ) -> Result<u64, FeedFault>
        requires { has_failed w.old ≡ false }
        ensures written { OfBook B.IsTrusted B.Holds self.old self.new (λ x.
            WritesFeed x.kept after 18446744073709551615 [] W.contents w.old w.new result) }
        ensures stops { StopsFeed w.old w.new result }
        ensures recent { MatchResult result (λ _. recent_of self.new ≡ recent_of self.old)
            (AfterFeedFault (recent_of self.old) (recent_of self.new)) }
        ensures kept { IsKeptGate B.IsTrusted B.Holds B.LeavesOneOf self.old self.new }
        ensures settings { settings_of self.new ≡ settings_of self.old }
    {
        let told = self.book.deliveries(after, ALL, b"", w);
        self.recent.heed_feed(&told);
        told
    }
}
