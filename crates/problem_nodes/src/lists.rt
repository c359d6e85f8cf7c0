//! The lists of nodes while they are made.
ghost use Rattle.std.specs.Prelude.{◌≡◌, ◌<◌, ◌≤◌, [], Some, OnOk, IfOk, MatchOption, length, slice_get, slice_set, option_copied};
ghost use Rattle.std.specs.List.{flat_map};
ghost use Rattle.eb_term.specs.Nodes.{subterms};
ghost use Rattle.problem_nodes.specs.declared.lists.Made.TheVariants as made;
ghost use Rattle.problem_nodes.specs.Places.{parts, starts};
ghost use Rattle.problem_nodes.specs.Aboves.{row, rows};
ghost use Rattle.problem_nodes.specs.steps.Lists as spec;

use crate::nodes::Above;
use eb_term::{Head, Term};
use std::alloc::{AllocError, Global};
use std::marker::Model;

/// What terms beside each other are: the definitions, the facts, or the parts of the node with a number.
#[derive(Clone, Copy)]
pub(crate) enum Made {
    Definitions,
    Facts,
    Parts(u64),
}

impl Made {
    fn at(self, place: u64) -> Above
        ensures { result ≡ spec.made_at self place }
    {
        match self {
            Made::Definitions => Above::Definition(place),
            Made::Facts => Above::Fact(place),
            Made::Parts(number) => Above::Part(number, place),
        }
    }
}

/// A node, what it stands below, and the number of the node after all of its own.
#[derive(Clone, Copy)]
pub(crate) struct Entry<'p> {
    pub(crate) term: &'p Term,
    pub(crate) above: Above,
    pub(crate) end: u64,
}

/// The nodes so far, what each stands below, and where its nodes end.
#[derive(Drop)]
pub(crate) struct Lists<'p> {
    pub(crate) entries: Vec<Entry<'p>>,
}

impl<'p> Model for Lists<'p> {
    ghost use Rattle.std.specs.Prelude.{map};
    ghost use Rattle.std.specs.Coded.{codes};
    ghost use Rattle.problem_nodes.specs.steps.Lists.{Listed};
    ghost use Rattle.eb_term.specs.contracts.term.Term as e;

    ghost Value = { Listed };

    ghost coded = { Prim.hlevel (codes, e.the_row.coded) };

    ghost view = { λ l. record {
      terms = map (λ e. e.term.now) l.entries.items;
      aboves = map (λ e. e.above) l.entries.items;
      ends = map (λ e. e.end) l.entries.items;
    } };
}

impl<'p> Lists<'p> {
    pub(crate) fn new(alloc: Global) -> Lists<'p>
        ensures { result ≡ record { terms = []; aboves = []; ends = [] } }
    {
        Lists {
            entries: Vec::new(alloc),
        }
    }

    /// How many nodes there are.
    pub(crate) fn len(&self) -> u64
        ensures count { result ≡ length self.now.terms }
        ensures even { length self.now.ends ≡ length self.now.terms }
    {
        self.entries.len() as u64
    }

    /// The node with this number.
    pub(crate) fn node(&self, k: u64) -> Option<&'p Term>
        ensures node { option_copied result ≡ slice_get self.now.terms k }
        ensures within { MatchOption result (length self.now.terms ≤ k) (λ _. k < length self.now.terms) }
    {
        match self.entries.get(k as usize) {
            Some(entry) => Some(entry.term),
            None => None,
        }
    }

    /// What the node with this number stands below.
    pub(crate) fn above(&self, k: u64) -> Above
        requires { k < length self.now.aboves }
        ensures { slice_get self.now.aboves k ≡ Some result }
    {
        self.entries[k as usize].above
    }

    /// The number of the node after all nodes of the node with this number.
    pub(crate) fn end(&self, k: u64) -> u64
        requires { k < length self.now.ends }
        ensures { slice_get self.now.ends k ≡ Some result }
    {
        self.entries[k as usize].end
    }

    /// Writes a node to the end. After want of memory the lists are given up.
    fn begin(&mut self, term: &'p Term, above: Above) -> Result<(), AllocError>
        ensures { OnOk result (self.new ≡ spec.begun self.old term.now above) }
    {
        self.entries.push(Entry {
            term,
            above,
            end: 0,
        })?;
        Ok(())
    }

    /// Says that the nodes of the node with this number end here.
    fn close(&mut self, number: u64)
        requires { number < length self.old.ends }
        ensures { self.new ≡ record { terms = self.old.terms; aboves = self.old.aboves; ends = slice_set self.old.ends number (length self.old.terms) } }
    {
        let end = self.entries.len() as u64;
        self.entries[number as usize].end = end;
    }
}

/// Writes the nodes of a term to the end. After want of memory the lists are given up.
#[cycle(walking)]
fn push_term<'p>(term: &'p Term, above: Above, lists: &mut Lists<'p>) -> Result<(), AllocError>
    ensures { OnOk result (lists.new ≡ spec.extended lists.old (subterms term.now) (row term.now (length lists.old.terms) above)) }
{
    let number = lists.len();
    lists.begin(term, above)?;
    push_parts(term, number, lists)?;
    lists.close(number);
    Ok(())
}

/// Writes the nodes of a node's parts to the end.
#[cycle(walking)]
fn push_parts<'p>(term: &'p Term, number: u64, lists: &mut Lists<'p>) -> Result<(), AllocError>
    ensures { OnOk result (lists.new ≡ spec.extended lists.old (flat_map subterms (parts term.now)) (rows (spec.made_at (made.Parts number)) 0 (length lists.old.terms) (parts term.now))) }
{
    let made = Made::Parts(number);
    match &term.head {
        Head::Unary(_, part) => push_term(part.get(), made.at(0), lists),
        Head::Binary(_, left, right) => {
            push_term(left.get(), made.at(0), lists)?;
            push_term(right.get(), made.at(1), lists)
        }
        Head::Many(_, parts) => push_row(parts.as_slice(), made, lists),
        Head::Over(_, range, body) => {
            push_term(range.get(), made.at(0), lists)?;
            push_term(body.get(), made.at(1), lists)
        }
        Head::All(_, _, body) => push_term(body.get(), made.at(0), lists),
        _ => Ok(()),
    }
}

/// Writes the nodes of terms beside each other to the end.
#[cycle(walking)]
fn push_row<'p>(terms: &'p [Term], made: Made, lists: &mut Lists<'p>) -> Result<(), AllocError>
    ensures { OnOk result (lists.new ≡ spec.extended lists.old (flat_map subterms terms.now) (rows (spec.made_at made) 0 (length lists.old.terms) terms.now)) }
{
    for (place, term) in terms.iter().enumerate() {
        push_term(term, made.at(place as u64), lists)?;
    }
    Ok(())
}

/// Writes the nodes of terms beside each other to the end, and gives the numbers of the terms.
pub(crate) fn push_roots<'p>(
    alloc: Global,
    terms: &'p [Term],
    made: Made,
    lists: &mut Lists<'p>,
) -> Result<Vec<u64>, AllocError>
    ensures roots { IfOk result (λ roots. roots.items ≡ starts (length lists.old.terms) terms.now) }
    ensures nodes { OnOk result (lists.new ≡ spec.extended lists.old (flat_map subterms terms.now) (rows (spec.made_at made) 0 (length lists.old.terms) terms.now)) }
{
    let mut roots = Vec::new(alloc);
    for (place, term) in terms.iter().enumerate() {
        roots.push(lists.len())?;
        push_term(term, made.at(place as u64), lists)?;
    }
    Ok(roots)
}
