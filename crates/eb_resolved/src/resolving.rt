//! Numbers in place of names.
ghost use Rattle.std.specs.Prelude.{◌≡◌, IfOk, OnOk, map};
ghost use Rattle.eb_resolved.specs.Resolving as spec;
ghost use Rattle.eb_resolved.specs.Formulas as made;
ghost use Rattle.numbered_names.specs.Names.{oldest};

use crate::copies::{bound_copied, entries_from};
use crate::resolved::{Resolved, ResolvedNode};
use eb_names::Name;
use eb_syntax::{Ast, Binder, Bound, Constant, Identifier, Node, Quantifier};
use numbered_names::{Names, Scope, is_mark};
use sqlite_items::{Boxed, Items};
use std::alloc::{AllocError, Global};

/// A name where it is used without a `'`.
fn used_as(
    alloc: Global,
    scope: &Scope,
    name: &Name,
    place: u32,
    names: &mut Names,
) -> Result<Resolved, AllocError>
    ensures found { IfOk result (λ r. r ≡ (spec.used_as scope.now.entries place name.now names.old).0) }
    ensures names { OnOk result (names.new ≡ (spec.used_as scope.now.entries place name.now names.old).1) }
{
    let inner = names.used_as(alloc, name)?;
    let node = match inner.or(scope.number_of(name)) {
        Some(number) => ResolvedNode::Identifier(number),
        None => ResolvedNode::Unknown(name.copied(alloc)?, false),
    };
    Ok(Resolved { node, place })
}

/// A name with a `'`.
fn primed_as(alloc: Global, scope: &Scope, name: &Name, place: u32) -> Result<Resolved, AllocError>
    ensures { IfOk result (λ r. r ≡ spec.primed_as place name.now (oldest name.now scope.now.entries)) }
{
    let node = match scope.number_of(name) {
        Some(number) => ResolvedNode::Primed(number),
        None => ResolvedNode::Unknown(name.copied(alloc)?, true),
    };
    Ok(Resolved { node, place })
}

fn constant_at(constant: Constant, place: u32, names: &mut Names) -> Result<Resolved, AllocError>
    ensures found { IfOk result (λ r. r ≡ (spec.constant place constant names.old).0) }
    ensures names { OnOk result (names.new ≡ (spec.constant place constant names.old).1) }
{
    let node = if is_mark(constant) {
        ResolvedNode::Mark(constant, names.mark()?)
    } else {
        ResolvedNode::Constant(constant)
    };
    Ok(Resolved { node, place })
}

/// `%`, `UNION` and `INTER`
fn binder_of(
    alloc: Global,
    place: u32,
    binder: Binder,
    bound: &Bound,
    first: u32,
    condition: Boxed<Resolved>,
    value: Boxed<Resolved>,
) -> Result<Resolved, AllocError>
    ensures { IfOk result (λ r. r ≡ made.binder place binder bound.now first condition value) }
{
    let bound = bound_copied(alloc, bound)?;
    let node = ResolvedNode::Binder(binder, bound, first, condition, value);
    Ok(Resolved { node, place })
}

/// `{x.P|E}`
fn comprehension_of(
    alloc: Global,
    place: u32,
    bound: &[Identifier],
    first: u32,
    condition: Boxed<Resolved>,
    value: Boxed<Resolved>,
) -> Result<Resolved, AllocError>
    ensures { IfOk result (λ r. r ≡ made.comprehension place (spec.entries_from first bound.now) condition value) }
{
    let bound = entries_from(alloc, first, bound)?;
    let node = ResolvedNode::Comprehension(bound, condition, value);
    Ok(Resolved { node, place })
}

/// The formula with numbers in place of names, where these names are in scope and these identifiers are declared in the model;
/// the names are then those in scope behind it.
///
/// A name stands for what the innermost binder around it binds by this name. Where none does, it stands inside the E of a
/// `{E|P}` for what that binds, and elsewhere for what the model declares. The only error is want of memory, which also comes
/// where there are more than 2^32 numbers.
#[cycle(resolving)]
pub fn resolve(
    alloc: Global,
    scope: &Scope,
    ast: &Ast,
    names: &mut Names,
) -> Result<Resolved, AllocError>
    ensures found { IfOk result (λ r. r ≡ (spec.resolved scope.now.entries ast.now names.old).0) }
    ensures names { OnOk result (names.new ≡ (spec.resolved scope.now.entries ast.now names.old).1) }
{
    let place = ast.place;
    match &ast.node {
        Node::Number(n) => Ok(Resolved {
            node: ResolvedNode::Number(*n),
            place,
        }),
        Node::Identifier(name) => used_as(alloc, scope, name, place, names),
        Node::Primed(name) => primed_as(alloc, scope, name, place),
        Node::Constant(constant) => constant_at(*constant, place, names),
        Node::Parentheses(part) => resolve(alloc, scope, part.get(), names),
        Node::Prefix(prefix, part) => {
            let part = boxed(alloc, scope, part.get(), names)?;
            let node = ResolvedNode::Prefix(*prefix, part);
            Ok(Resolved { node, place })
        }
        Node::Call(call, part) => {
            let part = boxed(alloc, scope, part.get(), names)?;
            let node = ResolvedNode::Call(*call, part);
            Ok(Resolved { node, place })
        }
        Node::Inverse(part) => {
            let part = boxed(alloc, scope, part.get(), names)?;
            let node = ResolvedNode::Inverse(part);
            Ok(Resolved { node, place })
        }
        Node::Operator(operator, left, right) => {
            let left = boxed(alloc, scope, left.get(), names)?;
            let right = boxed(alloc, scope, right.get(), names)?;
            let node = ResolvedNode::Operator(*operator, left, right);
            Ok(Resolved { node, place })
        }
        Node::Quantifier(quantifier, bound, part) => {
            quantified(
                alloc,
                scope,
                *quantifier,
                bound.as_slice(),
                part.get(),
                place,
                names,
            )
        }
        Node::Binder(binder, bound, condition, value) => {
            let depth = names.depth();
            let first = names.next();
            names.bind_bound(alloc, bound)?;
            let condition = boxed(alloc, scope, condition.get(), names)?;
            let value = boxed(alloc, scope, value.get(), names)?;
            names.unbind(depth);
            binder_of(alloc, place, *binder, bound, first, condition, value)
        }
        Node::Comprehension(bound, condition, value) => {
            let depth = names.depth();
            let first = names.next();
            names.bind_all(alloc, bound.as_slice())?;
            let condition = boxed(alloc, scope, condition.get(), names)?;
            let value = boxed(alloc, scope, value.get(), names)?;
            names.unbind(depth);
            comprehension_of(alloc, place, bound.as_slice(), first, condition, value)
        }
        Node::Builder(value, condition) => {
            let depth = names.depth();
            let mut inner = names.entered(alloc);
            let value = boxed(alloc, scope, value.get(), &mut inner)?;
            let bound = inner.built(alloc)?;
            names.leave(alloc, inner)?;
            let condition = boxed(alloc, scope, condition.get(), names)?;
            names.unbind(depth);
            let node = ResolvedNode::Builder(bound, value, condition);
            Ok(Resolved { node, place })
        }
        Node::Extension(members) => {
            if members.is_empty() {
                return constant_at(Constant::EmptySet, place, names);
            }
            let members = each(alloc, scope, members.as_slice(), names)?;
            let node = ResolvedNode::Extension(members);
            Ok(Resolved { node, place })
        }
        Node::Partition(members) => {
            let members = each(alloc, scope, members.as_slice(), names)?;
            let node = ResolvedNode::Partition(members);
            Ok(Resolved { node, place })
        }
    }
}

#[cycle(resolving)]
fn boxed(
    alloc: Global,
    scope: &Scope,
    ast: &Ast,
    names: &mut Names,
) -> Result<Boxed<Resolved>, AllocError>
    ensures found { IfOk result (λ r. r ≡ (spec.resolved scope.now.entries ast.now names.old).0) }
    ensures names { OnOk result (names.new ≡ (spec.resolved scope.now.entries ast.now names.old).1) }
{
    let part = resolve(alloc, scope, ast, names)?;
    let part = Boxed::new(alloc, part)?;
    Ok(part)
}

/// Each of the formulas, in order.
#[cycle(resolving)]
fn each(
    alloc: Global,
    scope: &Scope,
    members: &[Ast],
    names: &mut Names,
) -> Result<Items<Resolved>, AllocError>
    ensures found { IfOk result (λ rs. rs ≡ (spec.each (map (spec.resolved scope.now.entries) members.now) names.old).0) }
    ensures names { OnOk result (names.new ≡ (spec.each (map (spec.resolved scope.now.entries) members.now) names.old).1) }
{
    let mut parts = Items::new(alloc);
    for member in members {
        let part = resolve(alloc, scope, member, names)?;
        parts.push(part)?;
    }
    Ok(parts)
}

/// `!` and `#`
#[cycle(resolving)]
fn quantified(
    alloc: Global,
    scope: &Scope,
    quantifier: Quantifier,
    bound: &[Identifier],
    part: &Ast,
    place: u32,
    names: &mut Names,
) -> Result<Resolved, AllocError>
    ensures found { IfOk result (λ r. r ≡ (spec.quantified place quantifier bound.now (spec.resolved scope.now.entries part.now) names.old).0) }
    ensures names { OnOk result (names.new ≡ (spec.quantified place quantifier bound.now (spec.resolved scope.now.entries part.now) names.old).1) }
{
    let depth = names.depth();
    let entries = entries_from(alloc, names.next(), bound)?;
    names.bind_all(alloc, bound)?;
    let part = boxed(alloc, scope, part, names)?;
    names.unbind(depth);
    let node = ResolvedNode::Quantifier(quantifier, entries, part);
    Ok(Resolved { node, place })
}
