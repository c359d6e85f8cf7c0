//! The expressions that a relation needs defined: its sides, and of a form to the right of a membership the value parts.

ghost use Rattle.std.specs.Prelude.{◌≡◌, IfOk, Bool, true, false, ◌&&◌, ◌||◌, List, map, ◌∷◌, [], ◌++◌, if◌then◌else◌};
ghost use Rattle.eb_term.specs.declared.term.Term.{Term};
ghost use Rattle.eb_term.specs.Terms as term;
ghost use Rattle.eb_term.specs.Terms.{by_parts};
ghost use Rattle.operator_kinds.specs.Operators as kind;
ghost use Rattle.narrow_terms.specs.Building as built;
ghost use Rattle.eb_wd.specs.WellDefined as spec;
ghost use Rattle.eb_wd.specs.WellDefined.{Conditions, wd_step};

use eb_syntax::{Call, Operator, Prefix};
use eb_term::{Binary, Binder, Head, Many, Term, Unary};
use narrow_terms::{copied, operation};
use operator_kinds::{is_arrow, is_membership, is_product};
use std::alloc::{AllocError, Global};

/// `P & Q`
pub(crate) fn conjunction(alloc: Global, left: Term, right: Term) -> Result<Term, AllocError>
    ensures { IfOk result (λ t. t ≡ built.conjunction left right) }
{
    operation(alloc, Operator::And, left, right)
}

/// That the expression is defined.
pub(crate) fn defined(alloc: Global, term: &Term) -> Result<Term, AllocError>
    ensures { IfOk result (λ t. t ≡ spec.is_defined term.now) }
{
    let term = copied(alloc, term)?;
    Term::unary(alloc, Unary::Defined, term)
}

/// The conjunction of this with that the expression is defined.
fn and_defined(alloc: Global, so_far: Term, term: &Term) -> Result<Term, AllocError>
    ensures { IfOk result (λ t. t ≡ built.conjunction so_far (spec.is_defined term.now)) }
{
    let last = defined(alloc, term)?;
    conjunction(alloc, so_far, last)
}

/// That each of the expressions is defined.
pub(crate) fn all_defined(alloc: Global, terms: &[Term]) -> Result<Term, AllocError>
    ensures { IfOk result (λ t. t ≡ spec.all_defined terms.now) }
{
    match terms {
        [] => Ok(Term::truth(true)),
        [first, rest @ ..] => {
            let first = defined(alloc, first)?;
            and_each(alloc, first, rest)
        }
    }
}

/// The conjunction of this with that each of the expressions is defined.
fn and_each(alloc: Global, first: Term, terms: &[Term]) -> Result<Term, AllocError>
    ensures { IfOk result (λ t. t ≡ spec.and_on first (map spec.is_defined terms.now)) }
{
    let mut all = first;
    for term in terms {
        all = and_defined(alloc, all, term)?;
    }
    Ok(all)
}

/// Whether the operator is another relation.
fn is_comparison(operator: Operator) -> bool
    ensures { result ≡ spec.is_comparison operator }
{
    matches!(
        operator,
        Operator::Equal
            | Operator::Unequal
            | Operator::Less
            | Operator::AtMost
            | Operator::Greater
            | Operator::AtLeast
    )
}

/// That the sides of a relation are defined; `true` of another operator.
pub(crate) fn relation(
    alloc: Global,
    operator: Operator,
    left: &Term,
    right: &Term,
) -> Result<Term, AllocError>
    ensures { IfOk result (λ t. t ≡ (if kind.is_membership operator then spec.all_defined (left.now ∷ (by_parts Conditions wd_step right.now).values)
        else (if spec.is_comparison operator then spec.all_defined (left.now ∷ right.now ∷ []) else term.truth true))) }
{
    if is_membership(operator) {
        let first = defined(alloc, left)?;
        and_values(alloc, right, first)
    } else if is_comparison(operator) {
        let first = defined(alloc, left)?;
        and_defined(alloc, first, right)
    } else {
        Ok(Term::truth(true))
    }
}

/// Where the value parts of a term stand.
#[derive(Clone, Copy)]
enum ValueParts {
    /// Nowhere: it is a predicate.
    Nowhere,
    /// It is one itself.
    Itself,
    /// In its parts.
    InParts,
}

/// Whether the term is a form.
fn is_form(term: &Term) -> bool
    ensures { result ≡ (by_parts Conditions wd_step term.now).is_form }
{
    match &term.head {
        Head::Infinite(_) => true,
        Head::Unary(operator, _) => makes_form(*operator),
        Head::Binary(operator, left, right) => match operator {
            Binary::Operator(operator) => {
                is_arrow(*operator)
                    || (is_product(*operator) && (is_form(left.get()) || is_form(right.get())))
            }
            Binary::Both => false,
            Binary::If => false,
        },
        Head::Many(operator, _) => match operator {
            Many::Extension => false,
            Many::Partition => false,
        },
        Head::Over(binder, _, _) => match binder {
            Binder::ForAll => false,
            Binder::Exists => false,
            Binder::Collect => false,
        },
        Head::All(binder, _, _) => match binder {
            Binder::ForAll => false,
            Binder::Exists => false,
            Binder::Collect => false,
        },
        _ => false,
    }
}

/// Whether the operator is the product of two sets of which one is a form.
fn is_product_form(operator: Operator, left: &Term, right: &Term) -> bool
    ensures { result ≡ (kind.is_product operator && ((by_parts Conditions wd_step left.now).is_form || (by_parts Conditions wd_step right.now).is_form)) }
{
    is_product(operator) && (is_form(left) || is_form(right))
}

/// Whether the operator makes a form.
fn makes_form(operator: Unary) -> bool
    ensures { (k : Conditions) → result ≡ (spec.by_unary operator k).is_form }
{
    match operator {
        Unary::Call(call) => match call {
            Call::PowerSet => true,
            Call::NonemptyPowerSet => true,
            _ => false,
        },
        _ => false,
    }
}

/// Where the value parts are of an operator with one part.
fn of_one(operator: Unary) -> ValueParts
    ensures nowhere { result ≡ ValueParts.Nowhere → (k : Conditions) → (spec.by_unary operator k).values ≡ [] }
    ensures itself { result ≡ ValueParts.Itself → (k : Conditions) → (spec.by_unary operator k).values ≡ (spec.by_unary operator k).term ∷ [] }
    ensures in_parts { result ≡ ValueParts.InParts → (k : Conditions) → (spec.by_unary operator k).values ≡ k.values }
{
    match operator {
        Unary::Prefix(prefix) => match prefix {
            Prefix::Not => ValueParts::Nowhere,
            Prefix::Minus => ValueParts::Itself,
        },
        Unary::Call(call) => match call {
            Call::Finite => ValueParts::Nowhere,
            Call::PowerSet => ValueParts::InParts,
            Call::NonemptyPowerSet => ValueParts::InParts,
            _ => ValueParts::Itself,
        },
        Unary::Inverse => ValueParts::Itself,
        Unary::Defined => ValueParts::Nowhere,
        Unary::Functional => ValueParts::Nowhere,
        Unary::Part(_) => ValueParts::Itself,
    }
}

/// Where the value parts are of an operator with two parts, by whether it is the product of two sets of which one is a form.
fn of_two(operator: Operator, form: bool) -> ValueParts
    ensures nowhere { result ≡ ValueParts.Nowhere → (k l : Conditions) → (kind.is_product operator && (k.is_form || l.is_form)) ≡ form
        → (spec.by_operator operator k l).values ≡ [] }
    ensures itself { result ≡ ValueParts.Itself → (k l : Conditions) → (kind.is_product operator && (k.is_form || l.is_form)) ≡ form
        → (spec.by_operator operator k l).values ≡ (spec.by_operator operator k l).term ∷ [] }
    ensures in_parts { result ≡ ValueParts.InParts → (k l : Conditions) → (kind.is_product operator && (k.is_form || l.is_form)) ≡ form
        → (spec.by_operator operator k l).values ≡ k.values ++ l.values }
{
    match operator {
        Operator::And => ValueParts::Nowhere,
        Operator::Or => ValueParts::Nowhere,
        Operator::Implies => ValueParts::Nowhere,
        Operator::Equivalent => ValueParts::Nowhere,
        _ => {
            if is_membership(operator) || is_comparison(operator) {
                ValueParts::Nowhere
            } else if is_arrow(operator) || form {
                ValueParts::InParts
            } else {
                ValueParts::Itself
            }
        }
    }
}

/// The conjunction of this with that each of the term's value parts is defined.
fn and_values(alloc: Global, term: &Term, so_far: Term) -> Result<Term, AllocError>
    ensures { IfOk result (λ t. t ≡ spec.and_on so_far (map spec.is_defined (by_parts Conditions wd_step term.now).values)) }
{
    match &term.head {
        Head::Truth(_) => Ok(so_far),
        Head::Infinite(_) => Ok(so_far),
        Head::Unary(operator, part) => match of_one(*operator) {
            ValueParts::Nowhere => Ok(so_far),
            ValueParts::Itself => and_defined(alloc, so_far, term),
            ValueParts::InParts => and_values(alloc, part.get(), so_far),
        },
        Head::Binary(operator, left, right) => match operator {
            Binary::Operator(operator) => {
                let form = is_product_form(*operator, left.get(), right.get());
                match of_two(*operator, form) {
                    ValueParts::Nowhere => Ok(so_far),
                    ValueParts::Itself => and_defined(alloc, so_far, term),
                    ValueParts::InParts => {
                        let first = and_values(alloc, left.get(), so_far)?;
                        and_values(alloc, right.get(), first)
                    }
                }
            }
            Binary::Both => Ok(so_far),
            Binary::If => and_defined(alloc, so_far, term),
        },
        Head::Many(operator, _) => match operator {
            Many::Extension => and_defined(alloc, so_far, term),
            Many::Partition => Ok(so_far),
        },
        Head::Over(binder, _, _) => match binder {
            Binder::ForAll => Ok(so_far),
            Binder::Exists => Ok(so_far),
            Binder::Collect => and_defined(alloc, so_far, term),
        },
        Head::All(binder, _, _) => match binder {
            Binder::ForAll => Ok(so_far),
            Binder::Exists => Ok(so_far),
            Binder::Collect => and_defined(alloc, so_far, term),
        },
        Head::Literal(_, _) => and_defined(alloc, so_far, term),
        Head::Reference(_, _) => and_defined(alloc, so_far, term),
        Head::Variable(_, _, _) => and_defined(alloc, so_far, term),
        Head::Identity(_) => and_defined(alloc, so_far, term),
        Head::Projection(_, _, _) => and_defined(alloc, so_far, term),
    }
}
