// The items that a front in memory has left.
ghost use Rattle.std.specs.Prelude.{◌≡◌, ◌≢◌, false, IfOk};
ghost use Rattle.http_wire.specs.declared.asks.WireFail.TheVariants as wire;
ghost use Rattle.hrana_front.specs.Items.{AreGivable, next_accepted, items_after_accept, is_for_take, next_taken, items_after_take};

use crate::{Accepted, FrontFail, FrontItem, FrontItems, NoMemory, Took};
use hrana_value::Duplicate;
use std::alloc::Global;
use std::collections::VecDeque;
use std::marker::Model;

/// The items that a front in memory has left.
#[derive(Drop)]
pub(crate) struct Waiting {
    items: VecDeque<FrontItem>,
}

impl Model for Waiting {
    ghost use Rattle.std.specs.Prelude.{List};
    ghost use Rattle.hrana_front.specs.Items.{AreGivable};
    ghost use Rattle.hrana_front.specs.declared.items.FrontItem.{FrontItem};

    ghost Value = { List FrontItem };

    ghost view = { λ w. w.items.items };

    ghost invariant = { λ w. AreGivable w.items.items };
}

impl Waiting {
    pub(crate) fn new(items: FrontItems) -> Waiting
        requires { AreGivable items }
        ensures { result ≡ items }
    {
        Waiting {
            items: VecDeque::from_vec(items.into_vec()),
        }
    }

    /// What `accept` gives after so many connections.
    pub(crate) fn next_accepted(&self, given: u32) -> Result<Accepted, FrontFail>
        ensures { result ≡ next_accepted self.now given }
    {
        match self.items.front() {
            Some(FrontItem::New) if given < u32::MAX => Ok(Accepted::New(given + 1)),
            Some(FrontItem::New) => Err(FrontFail::Failed),
            Some(FrontItem::Stop) => Ok(Accepted::Stop),
            _ => Ok(Accepted::NotYet),
        }
    }

    /// Takes an item off that is for `accept`.
    pub(crate) fn drop_accepted(&mut self)
        ensures { self.new ≡ items_after_accept self.old }
    {
        if let Some(FrontItem::New | FrontItem::Stop) = self.items.front() {
            self.items.pop_front();
        }
    }

    /// A copy of what `take` gives on a connection.
    pub(crate) fn next_taken(&self, alloc: Global, conn: u32) -> Result<Took, NoMemory>
        ensures next { IfOk result (λ answer. answer ≡ next_taken self.now conn) }
        ensures not_yet { IfOk result (λ answer. answer ≡ Took.NotYet → is_for_take self.now conn ≡ false) }
        ensures refused { IfOk result (λ answer. answer ≢ Took.Refused wire.NoMemory) }
    {
        match self.items.front() {
            Some(FrontItem::Take(owner, given)) if *owner == conn => given.copy(alloc),
            _ => Ok(Took::NotYet),
        }
    }

    /// Takes an item off that is for `take` on a connection.
    pub(crate) fn drop_taken(&mut self, conn: u32)
        ensures { self.new ≡ items_after_take self.old conn }
    {
        match self.items.front() {
            Some(FrontItem::Take(owner, _)) if *owner == conn => {
                self.items.pop_front();
            }
            _ => {}
        }
    }
}
