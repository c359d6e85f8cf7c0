//! The free names of a formula.
ghost use Rattle.std.specs.Prelude.{[], ◌∷◌, ◌≡◌, ◌++◌, ◌||◌, ℕ, List, OnOk, IfOk, map, not, if◌then◌else◌};
ghost use Rattle.std.specs.List.{flat_map};
ghost use Rattle.eb_resolved.specs.Unknown.{free, used};
ghost use Rattle.eb_scoping.specs.FreeNames as spec;
ghost use Rattle.eb_scoping.specs.steps.FreeByParts.{free_by_parts, plain_names, unbound};
ghost use Rattle.eb_scoping.specs.Sets.{has_text};

use super::sets::{NameSet, has_name, name_set};
use eb_names::Name;
use eb_syntax::{Ast, Bound, Identifier, Mark, Node};
use std::alloc::{AllocError, Global};

/// A name where a formula uses it, and whether with a `'`, which the name leaves out.
#[derive(Clone, Copy)]
pub struct Use<'a> {
    pub name: &'a Name,
    pub is_primed: bool,
}

/// Whether one of these identifiers has the name.
pub fn is_among(identifiers: &[Identifier], name: &str) -> bool
    ensures { result ≡ spec.is_among (spec.names_of identifiers.now) name.now }
{
    for other in identifiers {
        if other.name.as_str() == name {
            return true;
        }
    }
    false
}

/// The names of these identifiers. The only error is want of memory.
pub fn names<'a>(alloc: Global, identifiers: &'a [Identifier]) -> Result<Vec<&'a Name>, AllocError>
    ensures { IfOk result (λ names. map (λ x. x.now) names.items ≡ spec.names_of identifiers.now) }
{
    let mut names = Vec::new(alloc);
    for identifier in identifiers {
        names.push(&identifier.name)?;
    }
    Ok(names)
}

fn push_mark<'a>(mark: &'a Mark, names: &mut Vec<&'a Name>) -> Result<(), AllocError>
    ensures { OnOk result (map (λ x. x.now) names.new.items ≡ map (λ x. x.now) names.old.items ++ spec.mark_names mark.now) }
{
    if let Mark::Identifier(identifier) = mark {
        names.push(&identifier.name)?;
    }
    Ok(())
}

/// The names of a pattern's identifiers. The only error is want of memory.
pub fn pattern_names<'a>(alloc: Global, pattern: &'a [Mark]) -> Result<Vec<&'a Name>, AllocError>
    ensures { IfOk result (λ names. map (λ x. x.now) names.items ≡ flat_map spec.mark_names pattern.now) }
{
    let mut names = Vec::new(alloc);
    for mark in pattern {
        push_mark(mark, &mut names)?;
    }
    Ok(names)
}

/// The names that a binder binds.
fn bound_names<'a>(alloc: Global, bound: &'a Bound) -> Result<Vec<&'a Name>, AllocError>
    ensures { IfOk result (λ names. map (λ x. x.now) names.items ≡ spec.bound_names bound.now) }
{
    match bound {
        Bound::Identifiers(identifiers) => names(alloc, identifiers.as_slice()),
        Bound::Pattern(pattern) => pattern_names(alloc, pattern.as_slice()),
    }
}

/// The names that these uses have without a `'`.
fn plain_names<'a>(alloc: Global, uses: &[Use<'a>]) -> Result<Vec<&'a Name>, AllocError>
    ensures { IfOk result (λ names. map (λ x. x.now) names.items ≡ plain_names (map spec.seen uses.now)) }
{
    let mut names = Vec::new(alloc);
    for used in uses {
        if !used.is_primed {
            names.push(used.name)?;
        }
    }
    Ok(names)
}

/// Whether the use is one that the names of the set don't bind.
fn is_unbound(names: &NameSet<'_>, used: Use<'_>) -> bool
    ensures { result ≡ (used.entry.is_primed || not (has_text names.now used.entry.name.now)) }
{
    used.is_primed || !has_name(names, used.name.as_str())
}

/// Writes the uses that these names don't bind to the end.
fn push_unbound<'a>(
    alloc: Global,
    names: &[&Name],
    uses: &[Use<'a>],
    out: &mut Vec<Use<'a>>,
) -> Result<(), AllocError>
    ensures { OnOk result (map spec.seen out.new.items ≡ map spec.seen out.old.items ++ unbound (map (λ x. x.now) names.now) (map spec.seen uses.now)) }
{
    let set = name_set(alloc, names)?;
    for used in uses {
        if is_unbound(&set, *used) {
            out.push(*used)?;
        }
    }
    Ok(())
}

fn push_use<'a>(name: &'a Name, is_primed: bool, out: &mut Vec<Use<'a>>) -> Result<(), AllocError>
    ensures { OnOk result (map spec.seen out.new.items ≡ map spec.seen out.old.items ++ used name.now is_primed ∷ []) }
{
    out.push(Use { name, is_primed })?;
    Ok(())
}

/// Writes the free names of the formula to the end.
#[cycle(walking)]
fn push_free<'a>(alloc: Global, ast: &'a Ast, out: &mut Vec<Use<'a>>) -> Result<(), AllocError>
    ensures { OnOk result (map spec.seen out.new.items ≡ map spec.seen out.old.items ++ free_by_parts ast.now) }
{
    match &ast.node {
        Node::Number(_) | Node::Constant(_) => Ok(()),
        Node::Identifier(name) => push_use(name, false, out),
        Node::Primed(name) => push_use(name, true, out),
        Node::Prefix(_, part) => push_free(alloc, part.get(), out),
        Node::Call(_, part) => push_free(alloc, part.get(), out),
        Node::Parentheses(part) => push_free(alloc, part.get(), out),
        Node::Inverse(part) => push_free(alloc, part.get(), out),
        Node::Operator(_, left, right) => {
            push_free(alloc, left.get(), out)?;
            push_free(alloc, right.get(), out)
        }
        Node::Quantifier(_, bound, part) => {
            let names = names(alloc, bound.as_slice())?;
            let mut inner = Vec::new(alloc);
            push_free(alloc, part.get(), &mut inner)?;
            push_unbound(alloc, &names, &inner, out)
        }
        Node::Binder(_, bound, condition, value) => {
            let names = bound_names(alloc, bound)?;
            let mut inner = Vec::new(alloc);
            push_free(alloc, condition.get(), &mut inner)?;
            push_free(alloc, value.get(), &mut inner)?;
            push_unbound(alloc, &names, &inner, out)
        }
        Node::Comprehension(bound, condition, value) => {
            let names = names(alloc, bound.as_slice())?;
            let mut inner = Vec::new(alloc);
            push_free(alloc, condition.get(), &mut inner)?;
            push_free(alloc, value.get(), &mut inner)?;
            push_unbound(alloc, &names, &inner, out)
        }
        Node::Builder(value, condition) => {
            let mut inner = Vec::new(alloc);
            push_free(alloc, value.get(), &mut inner)?;
            let names = plain_names(alloc, &inner)?;
            push_free(alloc, condition.get(), &mut inner)?;
            push_unbound(alloc, &names, &inner, out)
        }
        Node::Extension(members) => push_row(alloc, members.as_slice(), out),
        Node::Partition(members) => push_row(alloc, members.as_slice(), out),
    }
}

#[cycle(walking)]
fn push_row<'a>(alloc: Global, members: &'a [Ast], out: &mut Vec<Use<'a>>) -> Result<(), AllocError>
    ensures { OnOk result (map spec.seen out.new.items ≡ map spec.seen out.old.items ++ flat_map free_by_parts members.now) }
{
    for member in members {
        push_free(alloc, member, out)?;
    }
    Ok(())
}

/// The free names of a formula, one use after another in the order of the text. The only error is want of memory.
pub fn free_uses<'a>(alloc: Global, ast: &'a Ast) -> Result<Vec<Use<'a>>, AllocError>
    ensures { IfOk result (λ uses. map spec.seen uses.items ≡ free ast.now) }
{
    let mut uses = Vec::new(alloc);
    push_free(alloc, ast, &mut uses)?;
    Ok(uses)
}
