//! What formulas are made of.
ghost use Rattle.std.specs.Prelude.{◌≡◌, ◌++◌, map};
ghost use Rattle.std.specs.List.{list_any};
ghost use Rattle.eb_lowering.specs.Anchors.{is_in};
ghost use Rattle.eb_lowering.specs.Lowering as spec;
ghost use Rattle.eb_lowering.specs.declared.setting.Setting.{Setting};

use eb_forms::{Kind, call_kind, constant_kind, operator_kind};
use eb_resolved::{Resolved, ResolvedNode};

/// What the formula is.
#[cycle(kinds)]
pub(crate) fn kind_of(formula: &Resolved) -> Kind
    ensures { (s : Setting) → result ≡ (spec.lowered s formula.now).kind }
{
    match &formula.node {
        ResolvedNode::Constant(constant) => constant_kind(*constant),
        ResolvedNode::Call(call, _) => call_kind(*call),
        ResolvedNode::Operator(operator, left, right) => {
            operator_kind(*operator, kind_of(left.get()), kind_of(right.get()))
        }
        ResolvedNode::Number(_)
        | ResolvedNode::Identifier(_)
        | ResolvedNode::Primed(_)
        | ResolvedNode::Unknown(_, _)
        | ResolvedNode::Mark(_, _)
        | ResolvedNode::Prefix(_, _)
        | ResolvedNode::Inverse(_)
        | ResolvedNode::Quantifier(_, _, _)
        | ResolvedNode::Binder(_, _, _, _, _)
        | ResolvedNode::Comprehension(_, _, _)
        | ResolvedNode::Builder(_, _, _)
        | ResolvedNode::Extension(_)
        | ResolvedNode::Partition(_) => Kind::Value,
    }
}

pub(crate) fn is_among(numbers: &[u32], number: u32) -> bool
    ensures { result ≡ is_in numbers.now number }
{
    numbers.iter().any(|other| *other == number)
}

/// Whether the formula uses one of these identifiers.
#[cycle(using)]
pub(crate) fn uses_any(formula: &Resolved, numbers: &[u32]) -> bool
    ensures { (s : Setting) → result ≡ list_any (is_in numbers.now) (spec.lowered s formula.now).uses }
{
    match &formula.node {
        ResolvedNode::Identifier(number) => is_among(numbers, *number),
        ResolvedNode::Number(_)
        | ResolvedNode::Primed(_)
        | ResolvedNode::Unknown(_, _)
        | ResolvedNode::Constant(_)
        | ResolvedNode::Mark(_, _) => false,
        ResolvedNode::Prefix(_, part) => uses_any(part.get(), numbers),
        ResolvedNode::Call(_, part) => uses_any(part.get(), numbers),
        ResolvedNode::Inverse(part) => uses_any(part.get(), numbers),
        ResolvedNode::Quantifier(_, _, part) => uses_any(part.get(), numbers),
        ResolvedNode::Operator(_, first, second) => two_use(first.get(), second.get(), numbers),
        ResolvedNode::Binder(_, _, _, first, second) => {
            two_use(first.get(), second.get(), numbers)
        }
        ResolvedNode::Comprehension(_, first, second) => {
            two_use(first.get(), second.get(), numbers)
        }
        ResolvedNode::Builder(_, first, second) => two_use(first.get(), second.get(), numbers),
        ResolvedNode::Extension(members) => any_uses(members.as_slice(), numbers),
        ResolvedNode::Partition(members) => any_uses(members.as_slice(), numbers),
    }
}

/// Whether either of the formulas uses one of these identifiers.
#[cycle(using)]
fn two_use(first: &Resolved, second: &Resolved, numbers: &[u32]) -> bool
    ensures { (s : Setting) → result ≡ list_any (is_in numbers.now) ((spec.lowered s first.now).uses ++ (spec.lowered s second.now).uses) }
{
    uses_any(first, numbers) || uses_any(second, numbers)
}

/// Whether one of the formulas uses one of these identifiers.
#[cycle(using)]
fn any_uses(formulas: &[Resolved], numbers: &[u32]) -> bool
    ensures { (s : Setting) → result ≡ list_any (is_in numbers.now) (spec.all_uses (map (spec.lowered s) formulas.now)) }
{
    for formula in formulas {
        if uses_any(formula, numbers) {
            return true;
        }
    }
    false
}
