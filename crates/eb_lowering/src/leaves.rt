//! Numbers and constants as terms, and what stands for an expression without a value. The only error of each function is want of
//! memory.
ghost use Rattle.std.specs.Prelude.{◌≡◌, IfOk};
ghost use Rattle.eb_term.specs.Terms as term;
ghost use Rattle.eb_value.specs.Typing as typing;
ghost use Rattle.eb_lowering.specs.Lowering as spec;

use eb_syntax::{Constant, Operator};
use eb_term::{Head, Infinite, Term};
use eb_value::{EbType, LIMIT, Value, Values};
use narrow_terms::{empty_set, operation};
use std::alloc::{AllocError, Global};

/// An expression of this type without a value: what the empty relation has at 0.
pub(crate) fn no_value(alloc: Global, ty: EbType) -> Result<Term, AllocError>
    ensures { IfOk result (λ t. t ≡ spec.no_value ty) }
{
    let pairs = EbType::product(alloc, EbType::integer(), ty)?;
    let relation = EbType::power(alloc, pairs)?;
    let empty = empty_set(alloc, relation)?;
    let zero = Term::integer(alloc, 0)?;
    operation(alloc, Operator::Apply, empty, zero)
}

/// Whether a number is one of the integers, which are those within -2^62 .. 2^62.
fn is_in_range(n: i64) -> bool
    ensures { result ≡ typing.in_range n }
{
    -LIMIT <= n && n <= LIMIT
}

/// A number, which has a value where it is in the range of integers.
pub(crate) fn number_term(alloc: Global, n: i64) -> Result<Term, AllocError>
    ensures { IfOk result (λ t. t ≡ spec.number_term n) }
{
    if is_in_range(n) {
        Term::integer(alloc, n)
    } else {
        no_value(alloc, EbType::integer())
    }
}

/// BOOL, as the set of its values.
fn booleans(alloc: Global) -> Result<Term, AllocError>
    ensures { IfOk result (λ t. t ≡ spec.booleans) }
{
    let mut values = Values::new(alloc);
    values.push(Value::truth(false))?;
    values.push(Value::truth(true))?;
    let ty = EbType::power(alloc, EbType::boolean())?;
    Term::literal(alloc, Value::set(values), ty)
}

fn infinite(set: Infinite) -> Term
    ensures { result ≡ term.infinite set }
{
    Term {
        head: Head::Infinite(set),
    }
}

/// A constant, if it isn't a mark.
pub(crate) fn constant_term(alloc: Global, constant: Constant) -> Result<Term, AllocError>
    ensures { IfOk result (λ t. t ≡ spec.constant_term constant) }
{
    match constant {
        Constant::Truth => Ok(Term::truth(true)),
        Constant::Falsity => Ok(Term::truth(false)),
        Constant::Integers => Ok(infinite(Infinite::Integers)),
        Constant::Naturals => Ok(infinite(Infinite::Naturals)),
        Constant::PositiveNaturals => Ok(infinite(Infinite::PositiveNaturals)),
        Constant::Booleans => booleans(alloc),
        Constant::TrueValue => Term::literal(alloc, Value::truth(true), EbType::boolean()),
        Constant::FalseValue => Term::literal(alloc, Value::truth(false), EbType::boolean()),
        Constant::Identity
        | Constant::FirstProjection
        | Constant::SecondProjection
        | Constant::EmptySet => no_value(alloc, EbType::boolean()),
    }
}
