//! The binders around a node.
ghost use Rattle.std.specs.Prelude.{◌≡◌, ◌<◌, ℕ, List, IfOk, length, option_and_then};
ghost use Rattle.eb_value.specs.declared.types.EbType.{EbType as TheType};
ghost use Rattle.eb_term.specs.declared.problem.Problem.{Problem};
ghost use Rattle.eb_term.specs.Nodes.{nodes_of};
ghost use Rattle.narrow_terms.specs.Parts as parts;
ghost use Rattle.term_types.specs.Types as types;
ghost use Rattle.problem_nodes.specs.declared.nodes.Above.TheVariants as above;
ghost use Rattle.problem_nodes.specs.Places.{StandsBelow};
ghost use Rattle.occurrences.specs.Binding as binding;
ghost use Rattle.occurrences.specs.Occurrences.{StandsInside};

use eb_term::{Head, Term};
use eb_value::EbType;
use narrow_terms::element_of;
use problem_nodes::{Above, Nodes, nodes_have_their_places};
use std::alloc::{AllocError, Global};
use term_types::type_of;

/// The types of the values of the binders around a node, the outermost first. The only error is want of memory.
#[cycle(standing)]
pub fn binder_types(alloc: Global, nodes: &Nodes, k: u64) -> Result<Vec<EbType>, AllocError>
    requires { k < length (nodes_of nodes.now) }
    ensures { IfOk result (λ types. StandsInside nodes.now k types.items) }
{
    nodes_have_their_places();
    match nodes.above(k) {
        Above::Definition(_) => Ok(Vec::new(alloc)),
        Above::Fact(_) => Ok(Vec::new(alloc)),
        Above::Part(number, part) => types_below(alloc, nodes, number, part),
    }
}

/// A node stands inside one row of binders.
pub fn nodes_stand_inside_one_row_of_binders()
    ensures { (p : Problem) (k : ℕ) (a b : List TheType) → StandsInside p k a → StandsInside p k b → a ≡ b }
{
    nodes_have_their_places();
}

/// The type of the values that a binder gives its part at this place.
fn binds(alloc: Global, term: &Term, part: u64) -> Result<Option<EbType>, AllocError>
    ensures { IfOk result (λ t. t ≡ binding.binds term.now part) }
{
    match (&term.head, part) {
        (Head::Over(_, range, _), 1) => members_type(alloc, range.get()),
        (Head::All(_, ty, _), 0) => Ok(Some(ty.get().copied(alloc)?)),
        _ => Ok(None),
    }
}

/// The type of the members of a set.
fn members_type(alloc: Global, set: &Term) -> Result<Option<EbType>, AllocError>
    ensures { IfOk result (λ t. t ≡ option_and_then parts.element_of (types.type_of set.now)) }
{
    let Some(set) = type_of(alloc, set)? else {
        return Ok(None);
    };
    match element_of(&set) {
        Some(ty) => Ok(Some(ty.copied(alloc)?)),
        None => Ok(None),
    }
}

/// The types of the values of the binders around this part of the node with this number.
#[cycle(standing)]
fn types_below(
    alloc: Global,
    nodes: &Nodes,
    number: u64,
    part: u64,
) -> Result<Vec<EbType>, AllocError>
    requires { number < length (nodes_of nodes.now) }
    ensures { IfOk result (λ types. (k : ℕ) → StandsBelow nodes.now k (above.Part number part) → StandsInside nodes.now k types.items) }
{
    let mut types = binder_types(alloc, nodes, number)?;
    let Some(term) = nodes.get(number) else {
        unreachable!()
    };
    match binds(alloc, term, part)? {
        Some(ty) => {
            types.push(ty)?;
            Ok(types)
        }
        None => Ok(types),
    }
}
