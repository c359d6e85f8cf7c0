ghost use Rattle.std.specs.Prelude.{◌≡◌, set, length, false, IfOk};
ghost use Rattle.type_equations.specs.declared.store.Entry.TheVariants as entries;
ghost use Rattle.type_equations.specs.Stores as spec;

use std::alloc::{AllocError, Global};
use std::marker::Model;

/// What is known of a number's type.
#[derive(Clone, Copy, Debug, PartialEq, Eq)]
pub(crate) enum Entry {
    /// Nothing.
    Free,
    /// It is that of a smaller number.
    Link(u32),
    Integer,
    Boolean,
    Carrier(u32),
    /// It is the product of those of two numbers.
    Product(u32, u32),
    /// It is the type of sets of that of a number.
    Power(u32),
}

/// An entry for each number. Contracts see the list of the entries.
#[derive(Drop)]
pub(crate) struct Store {
    entries: Vec<Entry>,
}

impl Model for Store {
    ghost use Rattle.std.specs.Prelude.{List};
    ghost use Rattle.type_equations.specs.declared.store.Entry.{Entry};

    ghost Value = { List Entry };

    ghost view = { λ s. s.entries.items };
}

impl Store {
    /// Nothing is known of so many numbers. The only error is want of memory.
    pub(crate) fn free(alloc: Global, total: u32) -> Result<Store, AllocError>
        ensures { IfOk result (λ store. spec.IsFree total store) }
    {
        let mut entries = Vec::new(alloc);
        for _number in 0..total {
            entries.push(Entry::Free)?;
        }
        Ok(Store { entries })
    }

    /// The number's entry. Nothing is known of a number past the end.
    pub(crate) fn entry(&self, number: u32) -> Entry
        ensures { result ≡ spec.entry_at self.now number }
    {
        match self.entries.as_slice().get(number as usize) {
            Some(entry) => *entry,
            None => Entry::Free,
        }
    }

    /// Gives the number another entry. Where there is no such number, nothing changes.
    pub(crate) fn put(&mut self, number: u32, entry: Entry)
        ensures { self.new ≡ set self.old number entry }
    {
        if let Some(place) = self.entries.get_mut(number as usize) {
            *place = entry;
        }
    }

    /// Leads a link to where the next number's link leads.
    fn shorten(&mut self, number: u32, next: u32)
        requires placed { spec.ArePlaced self.old }
        requires link { spec.entry_at self.old number ≡ entries.Link next }
        ensures { spec.SaysTheSame self.old self.new }
    {
        if let Entry::Link(after) = self.entry(next) {
            self.put(number, Entry::Link(after));
        }
    }

    /// The number that the links lead to from here, which hasn't a link. The links on the way get shorter.
    pub(crate) fn root(&mut self, number: u32) -> u32
        requires { spec.ArePlaced self.old }
        ensures same { spec.SaysTheSame self.old self.new }
        ensures leads { spec.Leads self.new number result }
        ensures root { spec.is_link (spec.entry_at self.new result) ≡ false }
    {
        let mut at = number;
        while let Entry::Link(next) = self.entry(at) {
            self.shorten(at, next);
            at = next;
        }
        at
    }
}
