//! Boxes that are to be closed.
ghost use Rattle.std.specs.Prelude.{◌≡◌, ◌↔◌, ◌<◌, ◌+◌, [], ◌∷◌, None, IfOk, OnOk, IsTrue, length, option_copied, unwrap_or};
ghost use Rattle.occ_domains.specs.declared.domain.Domain.{Domain as TheDomain};
ghost use Rattle.occurrences.specs.Stores.{first_domains};
ghost use Rattle.domain_store.specs.Places as places;
ghost use Rattle.domain_store.specs.Slots as slots;
ghost use Rattle.domain_store.specs.Boxes as spec;
ghost use Rattle.domain_store.specs.steps.Kept as kept;

use crate::changes::Change;
use crate::firsts::Firsts;
use crate::slots::Slots;
use eb_value::{Scope, Value, order_is_total};
use occ_domains::Domain;
use occurrences::{Place, View};
use problem_nodes::Nodes;
use std::alloc::{AllocError, Global};
use std::marker::Model;
use std::mem;

/// The boxes that are to be closed, first ones first. Each is a store: a domain for each occurrence of a problem. Contracts see
/// the stores by `stores_of`. One store is kept, and the changes that lead from it to the later ones, so that a split costs the
/// same whatever the number of occurrences. After want of memory the boxes are given up.
#[derive(Drop)]
pub struct Boxes<'p> {
    alloc: Global,
    firsts: Firsts<'p>,
    slots: Slots,
    /// The domain of each slot that has one of its own, in the first box.
    cells: Vec<Option<Domain>>,
    /// The changes to come, the next one last.
    changes: Vec<Change>,
    is_closed: bool,
}

impl<'p> Model for Boxes<'p> {
    ghost use Rattle.std.specs.Coded.{codes};
    ghost use Rattle.eb_value.specs.contracts.scope.Scope as s;
    ghost use Rattle.eb_term.specs.contracts.problem.Problem as p;
    ghost use Rattle.occ_domains.specs.contracts.domain.Domain as d;
    ghost use Rattle.domain_store.specs.contracts.slots.Key as k;
    ghost use Rattle.domain_store.specs.contracts.changes.Change as c;
    ghost use Rattle.domain_store.specs.Boxes.{State};
    ghost use Rattle.domain_store.specs.steps.Kept.{IsSound};

    ghost Value = { State };

    ghost coded = { Prim.hlevel (codes, s.the_row.coded, p.the_row.coded, d.the_row.coded, k.the_row.coded, c.the_row.coded) };

    ghost view = { λ b. record {
      scope = b.firsts.scope;
      problem = b.firsts.problem;
      keys = b.slots;
      cells = b.cells.items;
      changes = b.changes.items;
      is_closed = b.is_closed;
    } };

    ghost invariant = { λ b. IsSound b.firsts.problem b.slots b.cells.items b.changes.items };
}

impl<'p> Boxes<'p> {
    /// The number of a place, if the problem has it.
    fn number(&self, place: Place) -> Option<u64>
        ensures { result ≡ places.place_number self.now.problem place }
    {
        let (choices, definitions, nodes) = self.firsts.counts();
        let _room = self.cells.len();
        match place {
            Place::Choice(k) if k < choices => Some(k),
            Place::Definition(k) if k < definitions => Some(choices + k),
            Place::Node(k) if k < nodes => Some(choices + definitions + k),
            _ => None,
        }
    }

    /// The slot of an occurrence, if it has one.
    fn slot(&self, place: Place, bound: &[Value]) -> Option<u64>
        ensures { result ≡ slots.slot_of self.now.problem self.now.keys place bound.now }
    {
        let number = self.number(place)?;
        if bound.is_empty() {
            return Some(number);
        }
        let index = self.slots.find(number, bound)?;
        let (choices, definitions, nodes) = self.firsts.counts();
        Some(choices + definitions + nodes + index)
    }

    /// The domain of its own of an occurrence, if it has one in the first box.
    fn own(&self, place: Place, bound: &[Value]) -> Option<&Domain>
        ensures { (first : TheDomain) → spec.own_or first (spec.cell_at self.now.cells (slots.slot_of self.now.problem self.now.keys place bound.now)) ≡ unwrap_or (option_copied result) first }
    {
        let slot = self.slot(place, bound)?;
        match self.cells.get(slot as usize) {
            Some(Some(domain)) => Some(domain),
            _ => None,
        }
    }

    /// Gives an occurrence with bound values a slot, behind all others.
    fn add(&mut self, number: u64, bound: &[Value]) -> Result<u64, AllocError>
        requires { slots.key_at self.old.keys number bound.now ≡ None }
        ensures slot { IfOk result (λ slot. slot ≡ length self.old.cells) }
        ensures added { OnOk result (self.new ≡ kept.with_key self.old (record { number = number; bound = bound.now })) }
    {
        let slot = self.cells.len() as u64;
        self.cells.push(None)?;
        if self.slots.add(self.alloc, number, bound).is_err() {
            self.cells.pop();
            return Err(AllocError);
        }
        Ok(slot)
    }

    /// The slot of an occurrence, which gets one where it has none.
    fn made_slot(&mut self, place: Place, bound: &[Value]) -> Result<u64, AllocError>
        requires there { places.HasPlace self.old.problem place }
        ensures slot { IfOk result (kept.HasSlot self.new place bound.now) }
        ensures same { OnOk result (kept.AreSame self.old self.new) }
    {
        order_is_total();
        let _ = &self.alloc;
        if let Some(slot) = self.slot(place, bound) {
            return Ok(slot);
        }
        match self.number(place) {
            Some(number) => {
                let slot = self.add(number, bound)?;
                Ok(slot)
            }
            None => unreachable!(),
        }
    }

    /// Gives a slot another domain in all boxes.
    fn put(&mut self, slot: u64, domain: Domain)
        requires { slot < length self.old.cells }
        ensures { self.new ≡ kept.with_put self.old slot domain }
    {
        self.cells[slot as usize] = Some(domain);
    }

    /// Gives a slot another domain in the first box.
    fn change(&mut self, slot: u64, domain: Domain) -> Result<(), AllocError>
        requires { slot < length self.old.cells }
        ensures { OnOk result (self.new ≡ kept.with_cell self.old slot domain) }
    {
        let before = mem::replace(&mut self.cells[slot as usize], Some(domain));
        self.changes.push(Change {
            slot,
            domain: before,
            is_box: false,
        })?;
        Ok(())
    }

    /// Puts a box behind all changes so far, in which the slot has this domain.
    fn push_box(&mut self, slot: u64, domain: Domain) -> Result<(), AllocError>
        requires { slot < length self.old.cells }
        ensures { OnOk result (self.new ≡ kept.with_change self.old (kept.box_at slot domain)) }
    {
        self.changes.push(Change {
            slot,
            domain: Some(domain),
            is_box: true,
        })?;
        Ok(())
    }
}

/// Makes a change.
fn make(cells: &mut Vec<Option<Domain>>, change: Change)
    requires { change.slot < length cells.old.items }
    ensures { cells.new.items ≡ spec.changed cells.old.items change }
{
    cells[change.slot as usize] = change.domain;
}

/// Adds so many slots without a domain of their own.
fn add_empty(cells: &mut Vec<Option<Domain>>, count: u64) -> Result<(), AllocError>
    ensures length { OnOk result (length cells.new.items ≡ length cells.old.items + count) }
    ensures empty { kept.AreEmpty cells.old.items → OnOk result (kept.AreEmpty cells.new.items) }
{
    for _ in 0..count {
        cells.push(None)?;
    }
    Ok(())
}

/// Slots without a domain of their own, for all places.
fn empty_cells(alloc: Global, counts: (u64, u64, u64)) -> Result<Vec<Option<Domain>>, AllocError>
    ensures length { IfOk result (λ cells. length cells.items ≡ counts.0 + counts.1 + counts.2) }
    ensures empty { IfOk result (λ cells. kept.AreEmpty cells.items) }
{
    let mut cells = Vec::new(alloc);
    add_empty(&mut cells, counts.0)?;
    add_empty(&mut cells, counts.1)?;
    add_empty(&mut cells, counts.2)?;
    Ok(cells)
}

impl<'p> Boxes<'p> {
    /// One box with the first store of a problem in a scope. The only error is want of memory.
    pub fn new(
        alloc: Global,
        nodes: &'p Nodes<'p>,
        scope: &'p Scope,
    ) -> Result<Boxes<'p>, AllocError>
        ensures stores { IfOk result (λ boxes. spec.stores_of boxes ≡ first_domains scope.now nodes.now ∷ []) }
        ensures scope { IfOk result (λ boxes. spec.scope_of boxes ≡ scope.now) }
        ensures problem { IfOk result (λ boxes. spec.problem_of boxes ≡ nodes.now) }
    {
        let firsts = Firsts::new(alloc, nodes, scope)?;
        let cells = empty_cells(alloc, firsts.counts())?;
        Ok(Boxes {
            alloc,
            firsts,
            slots: Slots::new(alloc),
            cells,
            changes: Vec::new(alloc),
            is_closed: false,
        })
    }

    /// Whether each box is closed.
    pub fn is_closed(&self) -> bool
        ensures { IsTrue result ↔ (spec.stores_of self.now ≡ []) }
    {
        self.is_closed
    }

    /// Gives an occurrence another domain in the first box. The only error is want of memory, and then the boxes are given up.
    pub fn narrow(
        &mut self,
        place: Place,
        bound: &[Value],
        domain: Domain,
    ) -> Result<(), AllocError>
        requires there { places.HasPlace (spec.problem_of self.old) place }
        ensures narrowed { OnOk result (spec.stores_of self.new ≡ spec.narrow_first place bound.now domain (spec.stores_of self.old)) }
        ensures scope { OnOk result (spec.scope_of self.new ≡ spec.scope_of self.old) }
        ensures problem { OnOk result (spec.problem_of self.new ≡ spec.problem_of self.old) }
    {
        order_is_total();
        let slot = self.made_slot(place, bound)?;
        if self.changes.is_empty() {
            self.put(slot, domain);
            return Ok(());
        }
        self.change(slot, domain)?;
        Ok(())
    }

    /// Puts two boxes in the first one's place, in which the occurrence has these domains. The only error is want of memory, and
    /// then the boxes are given up.
    pub fn split(
        &mut self,
        place: Place,
        bound: &[Value],
        first: Domain,
        second: Domain,
    ) -> Result<(), AllocError>
        requires there { places.HasPlace (spec.problem_of self.old) place }
        ensures split { OnOk result (spec.stores_of self.new ≡ spec.split_first place bound.now first second (spec.stores_of self.old)) }
        ensures scope { OnOk result (spec.scope_of self.new ≡ spec.scope_of self.old) }
        ensures problem { OnOk result (spec.problem_of self.new ≡ spec.problem_of self.old) }
    {
        order_is_total();
        let slot = self.made_slot(place, bound)?;
        self.change(slot, first)?;
        self.push_box(slot, second)?;
        Ok(())
    }

    /// Closes the first box.
    pub fn close(&mut self)
        ensures closed { spec.stores_of self.new ≡ spec.after_first (spec.stores_of self.old) }
        ensures scope { spec.scope_of self.new ≡ spec.scope_of self.old }
        ensures problem { spec.problem_of self.new ≡ spec.problem_of self.old }
    {
        while let Some(change) = self.changes.pop() {
            let is_box = change.is_box;
            make(&mut self.cells, change);
            if is_box {
                return;
            }
        }
        self.is_closed = true;
    }
}

impl<'p> View for Boxes<'p> {
    ghost domains = { spec.domains_of };

    fn at<'s>(&'s self, place: Place, bound: &[Value]) -> &'s Domain {
        match self.own(place, bound) {
            Some(domain) => domain,
            None => self.firsts.get(place),
        }
    }
}
