//! The declared identifiers of a model.
ghost use Rattle.std.specs.Prelude.{◌≡◌, IfOk, OnOk, if◌then◌else◌};
ghost use Rattle.numbered_names.specs.Names as spec;
ghost use Rattle.std.specs.Prelude.{ℕ, List};
ghost use Rattle.std.specs.BTreeMap.{get_by_text};

use crate::entries::Entry;
use eb_names::Name;
use sqlite_items::Items;
use std::alloc::{AllocError, Global};
use std::collections::BTreeMap;
use std::marker::Model;

/// The declared identifiers of a model, and how many numbers it has.
#[derive(Drop)]
pub struct Scope {
    entries: Items<Entry>,
    places: BTreeMap<String, u32>,
    asked: u32,
}

impl Model for Scope {
    ghost use Rattle.numbered_names.specs.Names.{Scope};
    ghost use Rattle.std.specs.Prelude.{ℕ, List, ◌≡◌};
    ghost use Rattle.std.specs.BTreeMap.{get_by_text};
    ghost use Rattle.numbered_names.specs.Names.{oldest};

    ghost Value = { Scope };

    ghost view = { λ s. record { entries = s.entries; asked = s.asked } };

    ghost invariant = { λ s. (q : List ℕ) → get_by_text s.places q ≡ oldest q s.entries };
}

/// Adds a name that isn't there yet.
fn add(alloc: Global, places: &mut BTreeMap<String, u32>, entry: &Entry) -> Result<(), AllocError>
    ensures { OnOk result ((q : List ℕ) → get_by_text places.new q ≡ spec.older q (get_by_text places.old q) entry.now) }
{
    let name = entry.name.as_str();
    if places.get(name).is_none() {
        let key = String::from_str(alloc, name)?;
        places.insert(key, entry.number)?;
    }
    Ok(())
}

/// The number of the first entry of each name.
fn places_of(alloc: Global, entries: &[Entry]) -> Result<BTreeMap<String, u32>, AllocError>
    ensures { IfOk result (λ places. (q : List ℕ) → get_by_text places q ≡ spec.oldest q entries.now) }
{
    let mut places = BTreeMap::new(alloc);
    for entry in entries {
        add(alloc, &mut places, entry)?;
    }
    Ok(places)
}

impl Scope {
    pub fn new(alloc: Global, entries: Items<Entry>, asked: u32) -> Result<Scope, AllocError>
        ensures entries { IfOk result (λ scope. scope.entries ≡ entries) }
        ensures asked { IfOk result (λ scope. scope.asked ≡ asked) }
    {
        let places = places_of(alloc, entries.as_slice())?;
        Ok(Scope {
            entries,
            places,
            asked,
        })
    }

    pub fn asked(&self) -> u32
        ensures { result ≡ self.now.asked }
    {
        self.asked
    }

    /// The number of the first declared identifier of this name.
    pub fn number_of(&self, name: &Name) -> Option<u32>
        ensures { result ≡ spec.oldest name.now self.now.entries }
    {
        self.places.get(name.as_str()).copied()
    }
}
