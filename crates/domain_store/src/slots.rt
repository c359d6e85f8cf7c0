//! The occurrences with bound values that got a domain of their own.
ghost use Rattle.std.specs.Prelude.{◌≡◌, ◌<◌, ◌≤◌, ◌++◌, ◌∷◌, [], Some, None, length, OnOk, OnErr, IfOk, IfErr, IfSome};
ghost use Rattle.std.specs.List.{insert};
ghost use Rattle.domain_store.specs.Slots as slots;
ghost use Rattle.domain_store.specs.steps.Rows as spec;

use crate::lists::item;
use crate::search::search;
use eb_value::{Value, Values, order_is_total, values_copied};
use std::alloc::{AllocError, Global};
use std::marker::Model;

/// An occurrence: the number of its place, and a value for each binder around it, the outermost first.
#[derive(Drop)]
pub(crate) struct Key {
    pub(crate) number: u64,
    pub(crate) bound: Values,
}

/// Numbers of keys.
#[derive(Drop)]
pub(crate) struct Row {
    numbers: Vec<u64>,
}

impl Model for Row {
    ghost use Rattle.std.specs.Prelude.{List, ℕ};

    ghost Value = { List ℕ };

    ghost view = { λ r. r.numbers.items };
}

impl Row {
    fn new(alloc: Global) -> Row
        ensures { result ≡ [] }
    {
        Row {
            numbers: Vec::new(alloc),
        }
    }

    fn as_slice(&self) -> &[u64]
        ensures { result.now ≡ self.now }
    {
        self.numbers.as_slice()
    }

    /// Puts a number at a place. The only error is want of memory, and then all stays as it was.
    fn insert(&mut self, at: usize, number: u64) -> Result<(), AllocError>
        requires { at ≤ length self.old }
        ensures put { OnOk result (self.new ≡ insert self.old at number) }
        ensures unchanged { OnErr result (self.new ≡ self.old) }
    {
        self.numbers.insert(at, number)?;
        Ok(())
    }
}

/// Occurrences by number. Contracts see their list. They are found by the rows of those of each place, in the order of their
/// values.
#[derive(Drop)]
pub(crate) struct Slots {
    keys: Vec<Key>,
    rows: Vec<Row>,
}

impl Model for Slots {
    ghost use Rattle.std.specs.Prelude.{List};
    ghost use Rattle.std.specs.Coded.{codes};
    ghost use Rattle.domain_store.specs.declared.slots.Key.{Key as TheKey};
    ghost use Rattle.domain_store.specs.contracts.slots.Key as k;
    ghost use Rattle.domain_store.specs.steps.Rows.{AreRows};

    ghost Value = { List TheKey };

    ghost coded = { Prim.hlevel (codes, k.the_row.coded) };

    ghost view = { λ s. s.keys.items };

    ghost invariant = { λ s. AreRows s.keys.items s.rows.items };
}

/// Makes rows for all places up to this one.
fn widen(alloc: Global, rows: &mut Vec<Row>, number: u64) -> Result<(), AllocError>
    ensures same { spec.SameRows rows.old.items rows.new.items }
    ensures there { OnOk result (number < length rows.new.items) }
{
    while rows.len() as u64 <= number {
        rows.push(Row::new(alloc))?;
    }
    Ok(())
}

/// The number of the key of this place and these values, or else the place in its row where it would stand.
fn lookup(keys: &[Key], rows: &[Row], number: u64, bound: &[Value]) -> Result<u64, usize>
    requires rows { spec.AreRows keys.now rows.now }
    ensures found { IfOk result (λ i. slots.key_at keys.now number bound.now ≡ Some i) }
    ensures place { IfErr result (spec.IsFree keys.now rows.now number bound.now) }
{
    order_is_total();
    match item(rows, number) {
        Some(row) => search(keys, row.as_slice(), bound),
        None => Err(0),
    }
}

impl Slots {
    /// No occurrence.
    pub(crate) fn new(alloc: Global) -> Slots
        ensures { result ≡ [] }
    {
        Slots {
            keys: Vec::new(alloc),
            rows: Vec::new(alloc),
        }
    }

    /// The number of an occurrence, if it has one.
    pub(crate) fn find(&self, number: u64, bound: &[Value]) -> Option<u64>
        ensures is { result ≡ slots.key_at self.now number bound.now }
        ensures within { IfSome result (λ i. i < length self.now) }
    {
        order_is_total();
        match lookup(&self.keys, &self.rows, number, bound) {
            Ok(i) => Some(i),
            Err(_) => None,
        }
    }

    /// Gives an occurrence that has none the next number. The only error is want of memory, and then all stays as it was.
    pub(crate) fn add(
        &mut self,
        alloc: Global,
        number: u64,
        bound: &[Value],
    ) -> Result<(), AllocError>
        requires { slots.key_at self.old number bound.now ≡ None }
        ensures added { OnOk result (self.new ≡ self.old ++ record { number = number; bound = bound.now } ∷ []) }
        ensures unchanged { OnErr result (self.new ≡ self.old) }
    {
        let bound = values_copied(alloc, bound)?;
        widen(alloc, &mut self.rows, number)?;
        let Err(at) = lookup(&self.keys, &self.rows, number, bound.as_slice()) else {
            unreachable!()
        };
        let index = self.keys.len() as u64;
        self.keys.push(Key { number, bound })?;
        match self.rows[number as usize].insert(at, index) {
            Ok(()) => Ok(()),
            Err(error) => {
                self.keys.pop();
                Err(error)
            }
        }
    }
}
