//! What a gate last said, kept to be said again while nothing has changed.
ghost use Rattle.std.specs.Prelude.{◌≡◌, IfSome, IsTrue, MatchResult, None, Some};
ghost use Rattle.gate_types.specs.Choice.{choose};
ghost use Rattle.gate_types.specs.Once.{Content};
ghost use Rattle.gate_types.specs.OrderList.{order_list_text};
ghost use Rattle.gate_types.specs.Settings.{Settings};
ghost use Rattle.gate_types.specs.State.{State};
ghost use Rattle.gate_types.specs.Status.{status_text};
ghost use Rattle.gate_types.specs.Step.{step, refused};
ghost use Rattle.gate_core.specs.Recent.{AfterFault, AfterFeedFault, IsTrueOf, KeepsButOrders, KeepsButStatus};
ghost use Rattle.gate_core.specs.Recent.{KeepsNothing};

use gate_archive::FeedFault;
use gate_book_trait::HistoryFault;
use gate_types::deliveries::{Delivery, Refusal};
use gate_types::names::Text;

/// The texts that were told, and whether a worker was told that there is no build to give.
#[derive(Drop)]
pub struct Recent {
    pub(crate) status: Option<Text>,
    pub(crate) orders: Option<Text>,
    pub(crate) idle: bool,
}

/// A text that is kept, where memory allows to copy it.
fn copy_of(kept: &Option<Text>) -> Option<Text>
    ensures { IfSome result (λ text. kept.now ≡ Some text) }
{
    match kept {
        Some(text) => text.copy().ok(),
        None => None,
    }
}

/// Whether the refusal says that nobody can be given a build.
fn says_idle(delivery: &Delivery, refusal: Refusal) -> bool
    ensures { IsTrue result → (c : Settings) (s : State) → step c s delivery.now ≡ refused refusal →
        choose c s ≡ None }
{
    match delivery {
        Delivery::Take { .. } => matches!(refusal, Refusal::Idle),
        _ => false,
    }
}

impl Recent {
    /// Nothing is kept yet.
    pub(crate) fn new() -> Recent
        ensures nothing { KeepsNothing result }
        ensures holds { (c : Settings) (x : Content) → IsTrueOf result c x }
    {
        Recent {
            status: None,
            orders: None,
            idle: false,
        }
    }

    /// Keeps nothing of what was said so far.
    pub(crate) fn clear(&mut self)
        ensures nothing { KeepsNothing self.new }
        ensures holds { (c : Settings) (x : Content) → IsTrueOf self.new c x }
    {
        *self = Recent::new();
    }

    /// Keeps nothing once a fault of the book ended a history.
    pub(crate) fn heed_history(&mut self, told: &Result<(), HistoryFault>)
        ensures kept { MatchResult told.now (λ _. self.new ≡ self.old) (AfterFault self.old self.new) }
        ensures holds { (c : Settings) (x : Content) → IsTrueOf self.old c x → IsTrueOf self.new c x }
    {
        if let Err(HistoryFault::Unavailable | HistoryFault::Broken) = told {
            self.clear();
        }
    }

    /// Keeps nothing once a fault of the book ended a list of deliveries.
    pub(crate) fn heed_feed<T>(&mut self, told: &Result<T, FeedFault>)
        ensures kept { MatchResult told.now (λ _. self.new ≡ self.old) (AfterFeedFault self.old self.new) }
        ensures holds { (c : Settings) (x : Content) → IsTrueOf self.old c x → IsTrueOf self.new c x }
    {
        if let Err(FeedFault::Unavailable | FeedFault::Broken) = told {
            self.clear();
        }
    }

    /// The status text, where it is kept and memory allows to copy it.
    pub(crate) fn status(&self) -> Option<Text>
        ensures { IfSome result (λ text. (c : Settings) (x : Content) → IsTrueOf self.now c x →
            text ≡ status_text c x.state) }
    {
        copy_of(&self.status)
    }

    /// Keeps the status text, where memory allows.
    pub(crate) fn keep_status(&mut self, text: &Text)
        ensures holds { (c : Settings) (x : Content) → text.now ≡ status_text c x.state → IsTrueOf self.old c x →
            IsTrueOf self.new c x }
        ensures rest { KeepsButStatus self.old self.new }
    {
        if let Ok(copy) = text.copy() {
            self.status = Some(copy);
        }
    }

    /// The text of the orders, where it is kept and memory allows to copy it.
    pub(crate) fn orders(&self) -> Option<Text>
        ensures { IfSome result (λ text. (c : Settings) (x : Content) → IsTrueOf self.now c x →
            text ≡ order_list_text c x.state) }
    {
        copy_of(&self.orders)
    }

    /// Keeps the text of the orders, where memory allows.
    pub(crate) fn keep_orders(&mut self, text: &Text)
        ensures holds { (c : Settings) (x : Content) → text.now ≡ order_list_text c x.state → IsTrueOf self.old c x →
            IsTrueOf self.new c x }
        ensures rest { KeepsButOrders self.old self.new }
    {
        if let Ok(copy) = text.copy() {
            self.orders = Some(copy);
        }
    }

    /// Whether it is kept that this delivery, under a new id, is refused as `Idle`.
    pub(crate) fn refuses(&self, delivery: &Delivery) -> bool
        ensures { IsTrue result → (c : Settings) (x : Content) → IsTrueOf self.now c x →
            step c x.state delivery.now ≡ refused Refusal.Idle }
    {
        match delivery {
            Delivery::Take { .. } => self.idle,
            _ => false,
        }
    }

    /// Keeps that nobody can be given a build, where the refusal of this delivery under a new id says so.
    pub(crate) fn keep_refusal(&mut self, delivery: &Delivery, refusal: Refusal)
        ensures { (c : Settings) (x : Content) → step c x.state delivery.now ≡ refused refusal →
            IsTrueOf self.old c x → IsTrueOf self.new c x }
    {
        if says_idle(delivery, refusal) {
            self.idle = true;
        }
    }
}
