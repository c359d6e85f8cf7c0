//! What the parts of a text declare, in its order.
ghost use Rattle.std.specs.Prelude.{[], ◌∷◌, ◌≡◌, ◌++◌, OnOk, IfOk, map};
ghost use Rattle.std.specs.List.{flat_map};
ghost use Rattle.eb_scoping.specs.FreeNames.{names_of, bound_names};
ghost use Rattle.eb_declared.specs.Declarations as spec;
ghost use Rattle.eb_declared.specs.Seen as held;
ghost use Rattle.eb_declared.specs.steps.Written as seen;

use crate::part::{Part, Space};
use eb_syntax::{Ast, Bound, Identifier, Mark, Node};
use std::alloc::{AllocError, Global};

/// What one declaration declares: a name in a space, or the identifiers of a binder, which have a space of their own.
#[derive(Clone, Copy)]
pub(crate) enum Declaration<'a> {
    Name(Space<'a>, &'a str),
    Identifiers(&'a [Identifier]),
    Pattern(&'a [Mark]),
}

fn push_binder<'a>(
    names: &'a [Identifier],
    out: &mut Vec<Declaration<'a>>,
) -> Result<(), AllocError>
    ensures { OnOk result (map seen.declaration out.new.items ≡ map seen.declaration out.old.items ++ spec.binds (names_of names.now) ∷ []) }
{
    out.push(Declaration::Identifiers(names))?;
    Ok(())
}

fn push_bound<'a>(bound: &'a Bound, out: &mut Vec<Declaration<'a>>) -> Result<(), AllocError>
    ensures { OnOk result (map seen.declaration out.new.items ≡ map seen.declaration out.old.items ++ spec.binds (bound_names bound.now) ∷ []) }
{
    match bound {
        Bound::Identifiers(names) => push_binder(names.as_slice(), out),
        Bound::Pattern(marks) => {
            out.push(Declaration::Pattern(marks.as_slice()))?;
            Ok(())
        }
    }
}

/// Writes the binders of the formula to the end.
#[cycle(walking)]
fn push_binders<'a>(ast: &'a Ast, out: &mut Vec<Declaration<'a>>) -> Result<(), AllocError>
    ensures { OnOk result (map seen.declaration out.new.items ≡ map seen.declaration out.old.items ++ spec.formula_declarations ast.now) }
{
    match &ast.node {
        Node::Number(_) | Node::Constant(_) | Node::Identifier(_) | Node::Primed(_) => Ok(()),
        Node::Prefix(_, part) => push_binders(part.get(), out),
        Node::Call(_, part) => push_binders(part.get(), out),
        Node::Parentheses(part) => push_binders(part.get(), out),
        Node::Inverse(part) => push_binders(part.get(), out),
        Node::Operator(_, left, right) => {
            push_binders(left.get(), out)?;
            push_binders(right.get(), out)
        }
        Node::Quantifier(_, bound, part) => {
            push_binder(bound.as_slice(), out)?;
            push_binders(part.get(), out)
        }
        Node::Binder(_, bound, condition, value) => {
            push_bound(bound, out)?;
            push_binders(condition.get(), out)?;
            push_binders(value.get(), out)
        }
        Node::Comprehension(bound, condition, value) => {
            push_binder(bound.as_slice(), out)?;
            push_binders(condition.get(), out)?;
            push_binders(value.get(), out)
        }
        Node::Builder(value, condition) => {
            push_binders(value.get(), out)?;
            push_binders(condition.get(), out)
        }
        Node::Extension(members) => push_row(members.as_slice(), out),
        Node::Partition(members) => push_row(members.as_slice(), out),
    }
}

#[cycle(walking)]
fn push_row<'a>(members: &'a [Ast], out: &mut Vec<Declaration<'a>>) -> Result<(), AllocError>
    ensures { OnOk result (map seen.declaration out.new.items ≡ map seen.declaration out.old.items ++ flat_map spec.formula_declarations members.now) }
{
    for member in members {
        push_binders(member, out)?;
    }
    Ok(())
}

/// Writes what the part declares to the end.
fn push_part<'a>(part: Part<'a>, out: &mut Vec<Declaration<'a>>) -> Result<(), AllocError>
    ensures { OnOk result (map seen.declaration out.new.items ≡ map seen.declaration out.old.items ++ spec.part_declarations (held.part part.entry)) }
{
    match part {
        Part::Declared(space, name) => {
            out.push(Declaration::Name(space, name))?;
            Ok(())
        }
        Part::Used(_, _) => Ok(()),
        Part::Formula(_, formula) => push_binders(formula, out),
    }
}

/// What the parts declare.
pub(crate) fn declarations<'a>(
    alloc: Global,
    parts: &[Part<'a>],
) -> Result<Vec<Declaration<'a>>, AllocError>
    ensures { IfOk result (λ found. map seen.declaration found.items ≡ flat_map (λ p. spec.part_declarations (held.part p)) parts.now) }
{
    let mut found = Vec::new(alloc);
    for part in parts {
        push_part(*part, &mut found)?;
    }
    Ok(found)
}
