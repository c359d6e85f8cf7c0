ghost use Rattle.std.specs.Prelude.{◌≡◌, ◌<◌, ◌≤◌, IfOk, MatchOption, length, slice_get, option_copied, Some};
ghost use Rattle.eb_term.specs.Nodes.{nodes_of};
ghost use Rattle.problem_nodes.specs.declared.nodes.Above.TheVariants as above;
ghost use Rattle.problem_nodes.specs.Places as spec;

use crate::lists::{Lists, Made, push_roots};
use eb_term::{Problem, Term};
use std::alloc::{AllocError, Global};
use std::marker::Model;

/// What a node stands below.
#[derive(Clone, Copy)]
pub enum Above {
    /// It is the definition at this place.
    Definition(u64),
    /// It is the fact at this place.
    Fact(u64),
    /// It is a part of the node with this number, at this place among its parts.
    Part(u64, u64),
}

/// The nodes of a problem, numbered from 0 in prefix order: those of its definitions and then of its facts. A term stands
/// before its parts, these stand from left to right, and a binder's range stands before its body. Contracts see the problem.
/// Every call but `new` takes constant time.
#[derive(Drop)]
pub struct Nodes<'p> {
    problem: &'p Problem,
    lists: Lists<'p>,
    definition_roots: Vec<u64>,
    fact_roots: Vec<u64>,
}

impl<'p> Model for Nodes<'p> {
    ghost use Rattle.std.specs.Prelude.{◌≡◌};
    ghost use Rattle.std.specs.Coded.{codes};
    ghost use Rattle.eb_term.specs.contracts.problem.Problem as e;
    ghost use Rattle.eb_term.specs.declared.problem.Problem.{Problem as TheProblem};
    ghost use Rattle.problem_nodes.specs.Places as places;
    ghost use Rattle.problem_nodes.specs.steps.Lists.{lists_of};

    ghost Value = { TheProblem };

    ghost coded = { Prim.hlevel (codes, e.the_row.coded) };

    ghost view = { λ n. n.problem.now };

    ghost invariant = { λ n. (n.lists ≡ lists_of n.problem.now)
        × (n.definition_roots.items ≡ places.definition_roots n.problem.now)
        × (n.fact_roots.items ≡ places.fact_roots n.problem.now) };
}

impl<'p> Nodes<'p> {
    /// The nodes of the problem, in one walk. The only error is want of memory.
    pub fn new(alloc: Global, problem: &'p Problem) -> Result<Nodes<'p>, AllocError>
        ensures { IfOk result (λ nodes. nodes ≡ problem.now) }
    {
        let mut lists = Lists::new(alloc);
        let definitions = problem.definitions.as_slice();
        let definition_roots = push_roots(alloc, definitions, Made::Definitions, &mut lists)?;
        let fact_roots = push_roots(alloc, problem.facts.as_slice(), Made::Facts, &mut lists)?;
        Ok(Nodes {
            problem,
            lists,
            definition_roots,
            fact_roots,
        })
    }

    /// The problem.
    pub fn problem(&self) -> &'p Problem
        ensures { result.now ≡ self.now }
    {
        self.problem
    }

    /// The number of nodes.
    pub fn len(&self) -> u64
        ensures { result ≡ length (nodes_of self.now) }
    {
        self.lists.len()
    }

    /// The node with this number. None exactly where the number isn't below that of the nodes.
    pub fn get(&self, k: u64) -> Option<&'p Term>
        ensures node { option_copied result ≡ slice_get (nodes_of self.now) k }
        ensures within { MatchOption result (length (nodes_of self.now) ≤ k) (λ _. k < length (nodes_of self.now)) }
    {
        self.lists.node(k)
    }

    /// The number of the node after all nodes of the node with this number.
    pub fn end(&self, k: u64) -> u64
        requires { k < length (nodes_of self.now) }
        ensures { spec.IsEnd self.now k result }
    {
        self.lists.end(k)
    }

    /// The number of the first part of the node with this number.
    pub fn first_part(&self, number: u64) -> u64
        requires { spec.HasParts self.now number 1 }
        ensures { spec.StandsBelow self.now result (above.Part number 0) }
    {
        let count = self.lists.len();
        prove!(number < count);
        number + 1
    }

    /// The number of the second part of the node with this number.
    pub fn second_part(&self, number: u64) -> u64
        requires { spec.HasParts self.now number 2 }
        ensures { spec.StandsBelow self.now result (above.Part number 1) }
    {
        self.end(self.first_part(number))
    }

    /// What the node with this number stands below.
    pub fn above(&self, k: u64) -> Above
        requires { k < length (nodes_of self.now) }
        ensures { spec.StandsBelow self.now k result }
    {
        self.lists.above(k)
    }

    /// The number of the definition at this place.
    pub fn definition_root(&self, place: u64) -> u64
        requires { place < length self.now.definitions }
        ensures { slice_get (spec.definition_roots self.now) place ≡ Some result }
    {
        at(&self.definition_roots, place)
    }

    /// The number of the fact at this place.
    pub fn fact_root(&self, place: u64) -> u64
        requires { place < length self.now.facts }
        ensures { slice_get (spec.fact_roots self.now) place ≡ Some result }
    {
        at(&self.fact_roots, place)
    }
}

/// What stands at a place of a list.
fn at(numbers: &[u64], place: u64) -> u64
    requires { place < length numbers.now }
    ensures { slice_get numbers.now place ≡ Some result }
{
    numbers[place as usize]
}
