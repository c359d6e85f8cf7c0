//! How a text is read as a line, for a problem.
ghost use Rattle.std.specs.Prelude.{◌≡◌, ◌&&◌, ℕ, List, [], if◌then◌else◌, Some, None, IfOk, true, option_map};
ghost use Rattle.eb_value.specs.declared.scope.Scope.{Scope as TheScope};
ghost use Rattle.occurrences.specs.declared.place.Place.TheVariants as place;
ghost use Rattle.eb_value.specs.Texts.{AreReadable};
ghost use Rattle.occurrences.specs.Typed as typed;
ghost use Rattle.tree_lines.specs.Lines as lines;
ghost use Rattle.tree_lines.specs.Written as form;
ghost use Rattle.tree_lines.specs.steps.Fitting.{HasBinders, IsOccurrence, IsFitted};
ghost use Rattle.tree_lines.specs.steps.Seen.{seen, seen_test};

use crate::form::form_of;
use crate::line::{Line, LineFault};
use crate::tests::fitting_test;
use crate::written::{Asked, Written};
use eb_names::Names;
use eb_value::{EbType, Scope, ValueFault, read_values};
use occurrences::{
    Occurrence, Place, Rule, binder_types, nodes_stand_inside_one_row_of_binders, target,
};
use problem_nodes::{Nodes, nodes_have_their_places};
use std::alloc::{AllocError, Global};
use term_types::type_of;

/// The line that a text is, without its line feed, for a problem in a scope; the names are those of the carrier sets.
///
/// `BadLine`: the text has none of the forms of lines. `NoSuchOccurrence`: it has, and names an occurrence or a fact that the
/// problem hasn't, or a rule that doesn't fit the occurrence. `BadTest`: the occurrence is there, and no test that is written
/// so fits its type. `Memory`: memory ran out, which says nothing of the text.
pub fn read_line(
    alloc: Global,
    text: &[u8],
    nodes: &Nodes,
    scope: &Scope,
    names: &Names,
) -> Result<Line, LineFault>
    requires { AreReadable names.now }
    ensures { lines.IsReading (lines.reader scope.now nodes.now names.now) text.now result }
{
    match form_of(text) {
        Some(written) => fitted(alloc, written, nodes, scope, names),
        None => Err(LineFault::BadLine),
    }
}

/// The line that is written so.
fn fitted(
    alloc: Global,
    written: Written<'_>,
    nodes: &Nodes,
    scope: &Scope,
    names: &Names,
) -> Result<Line, LineFault>
    requires readable { AreReadable names.now }
    requires small { form.is_written (seen written) ≡ true }
    ensures { IsFitted (lines.reader scope.now nodes.now names.now) (seen written.entry) result }
{
    match written {
        Written::Narrow(rule, place, inside) => {
            narrowing(alloc, rule, place, inside, nodes, scope, names)
        }
        Written::Split(place, inside, asked) => {
            split(alloc, place, inside, asked, nodes, scope, names)
        }
        Written::Clash(place, inside) => clash(alloc, place, inside, nodes, scope, names),
        Written::Eval(k) => eval(k, nodes),
        Written::Open => Ok(Line::Open),
        Written::Header(_) => Ok(Line::Header),
        Written::Begin => Ok(Line::Begin),
        Written::End => Ok(Line::End),
    }
}

fn narrowing(
    alloc: Global,
    rule: Rule,
    place: Place,
    inside: &[u8],
    nodes: &Nodes,
    scope: &Scope,
    names: &Names,
) -> Result<Line, LineFault>
    requires readable { AreReadable names.now }
    requires small { form.is_located place inside.now ≡ true }
    ensures { IsFitted (lines.reader scope.now nodes.now names.now) (form.narrow rule place inside.now) result }
{
    let occurrence = occurrence(alloc, place, inside, nodes, scope, names)?;
    match target(nodes, rule, place) {
        Some(_) => Ok(Line::Narrow(rule, occurrence)),
        None => Err(LineFault::NoSuchOccurrence),
    }
}

fn split(
    alloc: Global,
    place: Place,
    inside: &[u8],
    asked: Asked<'_>,
    nodes: &Nodes,
    scope: &Scope,
    names: &Names,
) -> Result<Line, LineFault>
    requires readable { AreReadable names.now }
    requires small { form.is_located place inside.now && form.is_asked (seen_test asked) ≡ true }
    ensures { IsFitted (lines.reader scope.now nodes.now names.now) (form.split place inside.now (seen_test asked.entry)) result }
{
    let occurrence = occurrence(alloc, place, inside, nodes, scope, names)?;
    let ty = type_there(alloc, nodes, place)?;
    let test = fitting_test(alloc, asked, ty.as_ref(), scope, names)?;
    Ok(Line::Split(occurrence, test))
}

fn clash(
    alloc: Global,
    place: Place,
    inside: &[u8],
    nodes: &Nodes,
    scope: &Scope,
    names: &Names,
) -> Result<Line, LineFault>
    requires readable { AreReadable names.now }
    requires small { form.is_located place inside.now ≡ true }
    ensures { IsFitted (lines.reader scope.now nodes.now names.now) (form.clash place inside.now) result }
{
    let occurrence = occurrence(alloc, place, inside, nodes, scope, names)?;
    Ok(Line::Clash(occurrence))
}

fn eval(k: u64, nodes: &Nodes) -> Result<Line, LineFault>
    requires { form.is_small k ≡ true }
    ensures { (scope : TheScope) (names : List (List ℕ)) → IsFitted (lines.reader scope nodes.now names) (form.eval k) result }
{
    if k < nodes.problem().facts.len() as u64 {
        Ok(Line::Eval(k))
    } else {
        Err(LineFault::NoSuchOccurrence)
    }
}

/// The occurrence at a place with the values whose texts stand in brackets.
fn occurrence(
    alloc: Global,
    place: Place,
    inside: &[u8],
    nodes: &Nodes,
    scope: &Scope,
    names: &Names,
) -> Result<Occurrence, LineFault>
    requires { AreReadable names.now }
    ensures { IsOccurrence (lines.reader scope.now nodes.now names.now) place inside.now result }
{
    let Some(types) = binders_at(alloc, nodes, place)? else {
        return Err(LineFault::NoSuchOccurrence);
    };
    match read_values(alloc, inside, &types, scope, names) {
        Ok(bound) => Ok(Occurrence { place, bound }),
        Err(ValueFault::Form) => Err(LineFault::NoSuchOccurrence),
        Err(ValueFault::Memory) => Err(LineFault::Memory),
    }
}

/// The types of the values in brackets behind a place; none where the problem hasn't the place.
fn binders_at(alloc: Global, nodes: &Nodes, place: Place) -> Result<Option<Vec<EbType>>, AllocError>
    ensures { IfOk result (λ types. HasBinders nodes.now place (option_map (λ t. t.items) types)) }
{
    match place {
        Place::Choice(k) => Ok(no_binders(alloc, k < nodes.problem().choices.len() as u64)),
        Place::Definition(k) => Ok(no_binders(alloc, k < nodes.problem().definitions.len() as u64)),
        Place::Node(k) => node_binders(alloc, nodes, k),
    }
}

/// No types, where the place is there.
fn no_binders(alloc: Global, is_there: bool) -> Option<Vec<EbType>>
    ensures { option_map (λ t. t.items) result ≡ (if is_there then Some [] else None) }
{
    if is_there {
        Some(Vec::new(alloc))
    } else {
        None
    }
}

fn node_binders(alloc: Global, nodes: &Nodes, k: u64) -> Result<Option<Vec<EbType>>, AllocError>
    ensures { IfOk result (λ types. HasBinders nodes.now (place.Node k) (option_map (λ t. t.items) types)) }
{
    nodes_have_their_places();
    nodes_stand_inside_one_row_of_binders();
    if k >= nodes.len() {
        return Ok(None);
    }
    let types = binder_types(alloc, nodes, k)?;
    Ok(Some(types))
}

/// The type of what stands at a place, none of a predicate.
fn type_there(alloc: Global, nodes: &Nodes, place: Place) -> Result<Option<EbType>, AllocError>
    ensures { IfOk result (λ t. t ≡ typed.type_there nodes.now place) }
{
    match place {
        Place::Choice(k) => match nodes.problem().choices.get(k as usize) {
            Some(choice) => Ok(Some(choice.ty.copied(alloc)?)),
            None => Ok(None),
        },
        Place::Definition(k) => match nodes.problem().definitions.get(k as usize) {
            Some(term) => type_of(alloc, term),
            None => Ok(None),
        },
        Place::Node(k) => match nodes.get(k) {
            Some(term) => type_of(alloc, term),
            None => Ok(None),
        },
    }
}
