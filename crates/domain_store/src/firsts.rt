//! The first domain of each place.
ghost use Rattle.std.specs.Prelude.{◌≡◌, ◌<◌, Option, Some, IfOk, length, slice_get, List};
ghost use Rattle.eb_value.specs.declared.value.Value.{Value as TheValue};
ghost use Rattle.eb_value.specs.declared.types.EbType.{EbType as TheType};
ghost use Rattle.eb_term.specs.Nodes.{nodes_of};
ghost use Rattle.occurrences.specs.Stores as stores;
ghost use Rattle.domain_store.specs.steps.Firsts as spec;

use crate::lists::item;
use crate::wholes::Wholes;
use eb_term::{Choice, Term};
use eb_value::Scope;
use occ_domains::{Body, Domain, Truths, first};
use occurrences::Place;
use problem_nodes::{Above, Nodes, nodes_have_their_places};
use std::alloc::{AllocError, Global};
use std::marker::Model;
use term_types::type_of;

/// The first domain of each place of a problem: one for each choice, one for each type of a term, and True alone for facts.
#[derive(Drop)]
pub(crate) struct Firsts<'p> {
    nodes: &'p Nodes<'p>,
    wholes: Wholes<'p>,
    choices: Vec<Domain>,
    /// The number of each definition's type.
    definitions: Vec<u64>,
    /// The number of each node's type, and none for facts.
    numbers: Vec<Option<u64>>,
    fact: Domain,
    nothing: Domain,
}

impl<'p> Model for Firsts<'p> {
    ghost use Rattle.std.specs.Coded.{codes};
    ghost use Rattle.eb_value.specs.contracts.scope.Scope as s;
    ghost use Rattle.eb_term.specs.contracts.problem.Problem as e;
    ghost use Rattle.domain_store.specs.steps.Firsts.{Context, AreFirsts};

    ghost Value = { Context };

    ghost coded = { Prim.hlevel (codes, s.the_row.coded, e.the_row.coded) };

    ghost view = { λ f. record { scope = f.wholes.scope; problem = f.nodes.now } };

    ghost invariant = { λ f. AreFirsts f.wholes f.nodes.now f.choices.items f.definitions.items f.numbers.items f.fact f.nothing };
}

/// The first domain of each choice.
fn choice_domains(
    alloc: Global,
    choices: &[Choice],
    scope: &Scope,
) -> Result<Vec<Domain>, AllocError>
    ensures { IfOk result (λ domains. domains.items ≡ spec.choice_domains scope.now choices.now) }
{
    let mut domains = Vec::new(alloc);
    for choice in choices {
        let body = first(alloc, &choice.ty, scope)?;
        domains.push(Domain::Values(body, false))?;
    }
    Ok(domains)
}

/// The number of the type of each term.
fn term_numbers(alloc: Global, terms: &[Term], wholes: &mut Wholes) -> Result<Vec<u64>, AllocError>
    ensures numbers { IfOk result (λ numbers. spec.AreOfTerms wholes.new.types terms.now numbers.items) }
    ensures keeps { spec.Extends wholes.old wholes.new }
{
    let mut numbers = Vec::new(alloc);
    for term in terms {
        let ty = type_of(alloc, term)?;
        numbers.push(wholes.number(alloc, ty)?)?;
    }
    Ok(numbers)
}

/// The number of a node's type, and none where it is a fact.
fn node_number(
    alloc: Global,
    nodes: &Nodes,
    k: u64,
    wholes: &mut Wholes,
) -> Result<Option<u64>, AllocError>
    requires { k < length (nodes_of nodes.now) }
    ensures number { IfOk result (spec.IsOfNode wholes.new.types nodes.now k) }
    ensures keeps { spec.Extends wholes.old wholes.new }
{
    nodes_have_their_places();
    if let Above::Fact(_) = nodes.above(k) {
        return Ok(None);
    }
    match nodes.get(k) {
        Some(term) => {
            let ty = type_of(alloc, term)?;
            let number = wholes.number(alloc, ty)?;
            Ok(Some(number))
        }
        None => Ok(None),
    }
}

/// The number of each node's type, and none for facts.
fn node_numbers(
    alloc: Global,
    nodes: &Nodes,
    wholes: &mut Wholes,
) -> Result<Vec<Option<u64>>, AllocError>
    ensures numbers { IfOk result (λ numbers. spec.AreOfNodes wholes.new.types nodes.now numbers.items) }
    ensures keeps { spec.Extends wholes.old wholes.new }
{
    let mut numbers = Vec::new(alloc);
    for k in 0..nodes.len() {
        numbers.push(node_number(alloc, nodes, k, wholes)?)?;
    }
    Ok(numbers)
}

/// The domain of all that may come of terms of the type with this number.
fn whole_at<'a>(wholes: &'a Wholes, number: u64, nothing: &'a Domain) -> &'a Domain
    ensures { (ty : Option TheType) → slice_get wholes.now.types number ≡ Some ty → result.now ≡ stores.whole_by wholes.now.scope ty }
{
    wholes.get(number).unwrap_or(nothing)
}

impl<'p> Firsts<'p> {
    /// The first domains of the places of a problem. The only error is want of memory.
    pub(crate) fn new(
        alloc: Global,
        nodes: &'p Nodes<'p>,
        scope: &'p Scope,
    ) -> Result<Firsts<'p>, AllocError>
        ensures { IfOk result (λ firsts. firsts ≡ record { scope = scope.now; problem = nodes.now }) }
    {
        let problem = nodes.problem();
        let mut wholes = Wholes::new(alloc, scope);
        let choices = choice_domains(alloc, problem.choices.as_slice(), scope)?;
        let definitions = term_numbers(alloc, problem.definitions.as_slice(), &mut wholes)?;
        let numbers = node_numbers(alloc, nodes, &mut wholes)?;
        let fact = Domain::Truths(Truths {
            can_be_true: true,
            can_be_false: false,
            can_be_undefined: false,
        });
        Ok(Firsts {
            nodes,
            wholes,
            choices,
            definitions,
            numbers,
            fact,
            nothing: Domain::Values(Body::Empty, false),
        })
    }

    /// How many choices, definitions and nodes the problem has.
    pub(crate) fn counts(&self) -> (u64, u64, u64)
        ensures { result ≡ (length self.now.problem.choices, length self.now.problem.definitions, length (nodes_of self.now.problem)) }
    {
        (
            self.choices.len() as u64,
            self.definitions.len() as u64,
            self.numbers.len() as u64,
        )
    }

    fn choice(&self, k: u64) -> &Domain
        ensures { result.now ≡ stores.choice_domain self.now.scope (slice_get self.now.problem.choices k) }
    {
        match item(&self.choices, k) {
            Some(domain) => domain,
            None => &self.nothing,
        }
    }

    fn definition(&self, k: u64) -> &Domain
        ensures { result.now ≡ stores.term_domain self.now.scope (slice_get self.now.problem.definitions k) }
    {
        match item(&self.definitions, k) {
            Some(number) => whole_at(&self.wholes, *number, &self.nothing),
            None => &self.nothing,
        }
    }

    fn node(&self, k: u64) -> &Domain
        ensures { result.now ≡ spec.node_domain self.now.scope self.now.problem k }
    {
        nodes_have_their_places();
        match item(&self.numbers, k) {
            Some(Some(number)) => whole_at(&self.wholes, *number, &self.nothing),
            Some(None) => &self.fact,
            None => &self.nothing,
        }
    }

    /// The first domain of a place, whatever the values of the binders around it.
    pub(crate) fn get(&self, place: Place) -> &Domain
        ensures { (bound : List TheValue) → result.now ≡ stores.first_domains self.now.scope self.now.problem place bound }
    {
        match place {
            Place::Choice(k) => self.choice(k),
            Place::Definition(k) => self.definition(k),
            Place::Node(k) => self.node(k),
        }
    }
}
