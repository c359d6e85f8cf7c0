//! Names with numbers, where the newest of a name counts.
ghost use Rattle.std.specs.Prelude.{◌≡◌, ◌++◌, ◌∷◌, ◌-◌, ℕ, List, [], length, take, Option, IfOk, OnOk, IsSome, if◌then◌else◌};
ghost use Rattle.std.specs.BTreeMap.{get_by_text};
ghost use Rattle.std.specs.Str.{bytes_eq};
ghost use Rattle.numbered_names.specs.Names as spec;
ghost use Rattle.numbered_names.specs.steps.Layers.{entries_of};

use eb_names::Name;
use sqlite_items::Items;
use std::alloc::{AllocError, Global};
use std::collections::BTreeMap;
use std::marker::Model;

/// A name and its number.
#[derive(Drop)]
pub struct Entry {
    pub name: Name,
    pub number: u32,
}

impl Entry {
    /// This name with this number. The only error is want of memory.
    pub fn new(alloc: Global, name: &Name, number: u32) -> Result<Entry, AllocError>
        ensures { IfOk result (λ entry. entry ≡ spec.entry name.now number) }
    {
        let name = name.copied(alloc)?;
        Ok(Entry { name, number })
    }
}

/// An entry, and what its name stood for before it.
#[derive(Drop)]
pub(crate) struct Layer {
    pub entry: Entry,
    pub hidden: Option<u32>,
}

/// Entries, the newest last. Contracts see their list.
#[derive(Drop)]
pub(crate) struct Entries {
    layers: Vec<Layer>,
    /// The number of the newest entry of each name.
    newest: BTreeMap<String, u32>,
}

impl Model for Entries {
    ghost use Rattle.std.specs.Prelude.{List, ℕ, map, ◌≡◌};
    ghost use Rattle.std.specs.BTreeMap.{get_by_text};
    ghost use Rattle.numbered_names.specs.declared.entries.Entry.{Entry};
    ghost use Rattle.numbered_names.specs.steps.Layers.{entries_of, AreLayers};

    ghost Value = { List Entry };

    ghost view = { λ e. entries_of e.layers.items };

    ghost invariant = { λ e. AreLayers e.layers.items (λ q. get_by_text e.newest q) };
}

/// Lets a name that has a number stand for what it stood for before.
fn restore(newest: &mut BTreeMap<String, u32>, name: &str, hidden: Option<u32>)
    requires { IsSome (get_by_text newest.old name.now) }
    ensures { (q : List ℕ) → get_by_text newest.new q ≡ (if bytes_eq q name.now then hidden else get_by_text newest.old q) }
{
    match hidden {
        Some(number) => {
            if let Some(place) = newest.get_mut(name) {
                *place = number;
            }
        }
        None => {
            newest.remove(name);
        }
    }
}

/// A copy of the entries of these layers.
fn entries_in(alloc: Global, layers: &[Layer]) -> Result<Items<Entry>, AllocError>
    ensures { IfOk result (λ entries. entries ≡ entries_of layers.now) }
{
    let mut entries = Items::new(alloc);
    for layer in layers {
        entries.push(Entry::new(alloc, &layer.entry.name, layer.entry.number)?)?;
    }
    Ok(entries)
}

impl Entries {
    /// No entries.
    pub(crate) fn new(alloc: Global) -> Entries
        ensures { result ≡ [] }
    {
        Entries {
            layers: Vec::new(alloc),
            newest: BTreeMap::new(alloc),
        }
    }

    /// How many entries there are.
    pub(crate) fn len(&self) -> usize
        ensures { result ≡ length self.now }
    {
        self.layers.len()
    }

    /// The number of the newest entry of this name.
    pub(crate) fn newest(&self, name: &Name) -> Option<u32>
        ensures { result ≡ spec.newest name.now self.now }
    {
        self.newest.get(name.as_str()).copied()
    }

    /// One more entry. The only error is want of memory, and then there is none more.
    pub(crate) fn push(&mut self, alloc: Global, name: &Name, number: u32) -> Result<(), AllocError>
        ensures { OnOk result (self.new ≡ self.old ++ spec.entry name.now number ∷ []) }
    {
        let entry = Entry::new(alloc, name, number)?;
        let key = String::from_str(alloc, name.as_str())?;
        let hidden = self.newest.get(name.as_str()).copied();
        self.layers.push(Layer { entry, hidden })?;
        match self.newest.insert(key, number) {
            Ok(_) => Ok(()),
            Err(_) => {
                self.layers.pop();
                Err(AllocError)
            }
        }
    }

    /// The entries but for the newest one.
    fn pop(&mut self)
        ensures { self.new ≡ take (length self.old - 1) self.old }
    {
        if let Some(layer) = self.layers.pop() {
            restore(&mut self.newest, layer.entry.name.as_str(), layer.hidden);
        }
    }

    /// So many of the first entries, or all where there are fewer.
    pub(crate) fn truncate(&mut self, count: usize)
        ensures { self.new ≡ take count self.old }
    {
        while self.len() > count {
            self.pop();
        }
    }

    /// The entries with what each hides.
    pub(crate) fn layers(&self) -> &[Layer]
        ensures { self.now ≡ entries_of result.now }
    {
        &self.layers
    }

    /// A copy of the entries. The only error is want of memory.
    pub(crate) fn entries(&self, alloc: Global) -> Result<Items<Entry>, AllocError>
        ensures { IfOk result (λ entries. entries ≡ self.now) }
    {
        entries_in(alloc, self.layers())
    }

    /// The entries of these layers behind those that are there.
    pub(crate) fn append(&mut self, alloc: Global, layers: &[Layer]) -> Result<(), AllocError>
        ensures { OnOk result (self.new ≡ self.old ++ entries_of layers.now) }
    {
        for layer in layers {
            self.push(alloc, &layer.entry.name, layer.entry.number)?;
        }
        Ok(())
    }
}
