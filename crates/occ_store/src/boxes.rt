ghost use Rattle.std.specs.Prelude.{◌≡◌, [], ◌∷◌, OnOk, OnErr, MatchOption, List};
ghost use Rattle.occ_store.specs.Boxes as spec;

use crate::store::Store;
use int_dom::Interval;
use std::alloc::{AllocError, Global};
use std::marker::Model;

/// A domain that a choice gets, on the way from one store to the next.
#[derive(Clone, Copy)]
struct Change {
    choice: u32,
    domain: Interval,
    /// Whether the store after this change is that of a box.
    is_box: bool,
}

/// The boxes that a tree has yet to close, first ones first. Each is a store. Contracts see the list
/// of the stores. One store is kept, and the changes that lead from it to the later ones, so that a
/// split costs the same whatever the number of choices.
#[derive(Drop)]
pub struct Boxes {
    /// The store of the first box.
    store: Store,
    /// The changes to come, the next one last.
    changes: Vec<Change>,
    is_closed: bool,
}

impl Model for Boxes {
    ghost use Rattle.std.specs.Prelude.{List, reverse};
    ghost use Rattle.occ_store.specs.Stores.{Store};
    ghost use Rattle.occ_store.specs.steps.Changes.{boxes_from};

    ghost Value = { List Store };

    ghost view = { λ b. boxes_from b.is_closed b.store (reverse b.changes.items) };
}

impl Boxes {
    /// No box.
    pub fn none(alloc: Global) -> Boxes
        ensures { result ≡ [] }
    {
        Boxes {
            store: Store::none(alloc),
            changes: Vec::new(alloc),
            is_closed: true,
        }
    }

    /// One box with this store.
    pub fn new(alloc: Global, store: Store) -> Boxes
        ensures { result ≡ store ∷ [] }
    {
        Boxes {
            store,
            changes: Vec::new(alloc),
            is_closed: false,
        }
    }

    /// The store of the first box, and None exactly where each box is closed.
    pub fn first(&self) -> Option<&Store>
        ensures { MatchOption result (self.now ≡ []) (λ store. self.now ≡ store.now ∷ spec.after_first self.now) }
    {
        if self.is_closed {
            None
        } else {
            Some(&self.store)
        }
    }

    /// Puts two boxes in the first one's place, in which the choice has these domains. The only error
    /// is want of memory, and then the boxes stay as they were.
    pub fn split(&mut self, choice: u32, low: Interval, high: Interval) -> Result<(), AllocError>
        requires there { spec.HasChoice self.old choice }
        ensures split { OnOk result (self.new ≡ spec.split_first choice low high self.old) }
        ensures unchanged { OnErr result (self.new ≡ self.old) }
    {
        if let Some(before) = self.store.domain(choice) {
            let back = Change {
                choice,
                domain: before,
                is_box: false,
            };
            let second = Change {
                choice,
                domain: high,
                is_box: true,
            };
            self.changes.extend_from_slice(&[back, second])?;
            self.store.put(choice, low);
        }
        Ok(())
    }

    /// Closes the first box.
    pub fn close(&mut self)
        ensures { self.new ≡ spec.after_first self.old }
    {
        while let Some(change) = self.changes.pop() {
            self.store.put(change.choice, change.domain);
            if change.is_box {
                return;
            }
        }
        self.is_closed = true;
    }
}
