//! A row for each operator.
ghost use Rattle.std.specs.Prelude.{◌≡◌, true};
ghost use Rattle.type_table.specs.Rows as spec;
ghost use Rattle.type_table.specs.steps.Tables.{is_of_sets};

use crate::pattern::{BinaryRow, Letter, Pattern, TernaryRow, UnaryRow};
use eb_syntax::{Call, Constant, Operator, Prefix};

fn unary(part: Pattern, whole: Pattern) -> UnaryRow
    ensures { result ≡ spec.unary part whole }
{
    UnaryRow { part, whole }
}

fn binary(left: Pattern, right: Pattern, whole: Pattern) -> BinaryRow
    ensures { result ≡ spec.binary left right whole }
{
    BinaryRow { left, right, whole }
}

/// What a constant is: a predicate, or an expression of a type.
pub fn constant_pattern(constant: Constant) -> Pattern
    ensures { result ≡ spec.constant_pattern constant }
{
    match constant {
        Constant::Truth | Constant::Falsity => Pattern::Predicate,
        Constant::Integers | Constant::Naturals | Constant::PositiveNaturals => Pattern::Integers,
        Constant::Booleans => Pattern::Booleans,
        Constant::TrueValue | Constant::FalseValue => Pattern::Boolean,
        Constant::Identity => Pattern::Relation(Letter::A, Letter::A),
        Constant::FirstProjection => Pattern::ToFirst,
        Constant::SecondProjection => Pattern::ToSecond,
        Constant::EmptySet => Pattern::Set(Letter::A),
    }
}

/// `not` and the `-` of a negative number.
pub fn prefix_row(prefix: Prefix) -> UnaryRow
    ensures { result ≡ spec.prefix_row prefix }
{
    match prefix {
        Prefix::Not => unary(Pattern::Predicate, Pattern::Predicate),
        Prefix::Minus => unary(Pattern::Integer, Pattern::Integer),
    }
}

/// A word before its part in parentheses.
pub fn call_row(call: Call) -> UnaryRow
    ensures { result ≡ spec.call_row call }
{
    match call {
        Call::PowerSet | Call::NonemptyPowerSet => {
            unary(Pattern::Set(Letter::A), Pattern::Sets(Letter::A))
        }
        Call::Cardinality => unary(Pattern::Set(Letter::A), Pattern::Integer),
        Call::Minimum | Call::Maximum => unary(Pattern::Integers, Pattern::Integer),
        Call::Domain => unary(
            Pattern::Relation(Letter::A, Letter::B),
            Pattern::Set(Letter::A),
        ),
        Call::Range => unary(
            Pattern::Relation(Letter::A, Letter::B),
            Pattern::Set(Letter::B),
        ),
        Call::GeneralizedUnion | Call::GeneralizedIntersection => {
            unary(Pattern::Sets(Letter::A), Pattern::Set(Letter::A))
        }
        Call::BoolOf => unary(Pattern::Predicate, Pattern::Boolean),
        Call::Finite => unary(Pattern::Set(Letter::A), Pattern::Predicate),
    }
}

/// The row of an operation of sets and relations, and of a set of relations.
fn set_row(operator: Operator) -> BinaryRow
    requires { is_of_sets operator ≡ true }
    ensures { result ≡ spec.operator_row operator }
{
    let set = Pattern::Set(Letter::A);
    let relation = Pattern::Relation(Letter::A, Letter::B);
    let second = Pattern::Relation(Letter::B, Letter::C);
    let composed = Pattern::Relation(Letter::A, Letter::C);
    match operator {
        Operator::Union | Operator::Intersection | Operator::Difference => binary(set, set, set),
        Operator::Product => binary(set, Pattern::Set(Letter::B), relation),
        Operator::ForwardComposition => binary(relation, second, composed),
        Operator::BackwardComposition => binary(second, relation, composed),
        Operator::DomainRestriction | Operator::DomainSubtraction => {
            binary(set, relation, relation)
        }
        Operator::RangeRestriction | Operator::RangeSubtraction => {
            binary(relation, Pattern::Set(Letter::B), relation)
        }
        Operator::Override => binary(relation, relation, relation),
        Operator::DirectProduct => binary(relation, composed, Pattern::ToPairs),
        Operator::ParallelProduct => binary(
            composed,
            Pattern::Relation(Letter::B, Letter::D),
            Pattern::BetweenPairs,
        ),
        Operator::Apply => binary(relation, Pattern::Type(Letter::A), Pattern::Type(Letter::B)),
        Operator::Image => binary(relation, set, Pattern::Set(Letter::B)),
        Operator::Relation
        | Operator::TotalRelation
        | Operator::SurjectiveRelation
        | Operator::TotalSurjectiveRelation
        | Operator::PartialFunction
        | Operator::TotalFunction
        | Operator::PartialInjection
        | Operator::TotalInjection
        | Operator::PartialSurjection
        | Operator::TotalSurjection
        | Operator::Bijection => binary(
            set,
            Pattern::Set(Letter::B),
            Pattern::Relations(Letter::A, Letter::B),
        ),
        // No other operator is asked for.
        _ => binary(Pattern::Predicate, Pattern::Predicate, Pattern::Predicate),
    }
}

/// The row of an operator.
pub fn operator_row(operator: Operator) -> BinaryRow
    ensures { result ≡ spec.operator_row operator }
{
    let one = Pattern::Type(Letter::A);
    let set = Pattern::Set(Letter::A);
    let integer = Pattern::Integer;
    match operator {
        Operator::Implies | Operator::Equivalent | Operator::Or | Operator::And => {
            binary(Pattern::Predicate, Pattern::Predicate, Pattern::Predicate)
        }
        Operator::Equal | Operator::Unequal => binary(one, one, Pattern::Predicate),
        Operator::MemberOf | Operator::NotMemberOf => binary(one, set, Pattern::Predicate),
        Operator::SubsetOf
        | Operator::NotSubsetOf
        | Operator::ProperSubsetOf
        | Operator::NotProperSubsetOf => binary(set, set, Pattern::Predicate),
        Operator::Less | Operator::AtMost | Operator::Greater | Operator::AtLeast => {
            binary(integer, integer, Pattern::Predicate)
        }
        Operator::MapsTo => binary(
            one,
            Pattern::Type(Letter::B),
            Pattern::Pair(Letter::A, Letter::B),
        ),
        Operator::UpTo => binary(integer, integer, Pattern::Integers),
        Operator::Plus
        | Operator::Minus
        | Operator::Times
        | Operator::Divide
        | Operator::Modulo
        | Operator::Power => binary(integer, integer, integer),
        Operator::Relation
        | Operator::TotalRelation
        | Operator::SurjectiveRelation
        | Operator::TotalSurjectiveRelation
        | Operator::PartialFunction
        | Operator::TotalFunction
        | Operator::PartialInjection
        | Operator::TotalInjection
        | Operator::PartialSurjection
        | Operator::TotalSurjection
        | Operator::Bijection
        | Operator::Union
        | Operator::Intersection
        | Operator::Difference
        | Operator::Product
        | Operator::ForwardComposition
        | Operator::BackwardComposition
        | Operator::DomainRestriction
        | Operator::DomainSubtraction
        | Operator::RangeRestriction
        | Operator::RangeSubtraction
        | Operator::Override
        | Operator::DirectProduct
        | Operator::ParallelProduct
        | Operator::Apply
        | Operator::Image => set_row(operator),
    }
}

/// `r~`
pub fn inverse_row() -> UnaryRow
    ensures { result ≡ spec.inverse_row }
{
    unary(
        Pattern::Relation(Letter::A, Letter::B),
        Pattern::Relation(Letter::B, Letter::A),
    )
}

/// `!` and `#`
pub fn quantifier_row() -> UnaryRow
    ensures { result ≡ spec.quantifier_row }
{
    unary(Pattern::Predicate, Pattern::Predicate)
}

/// `{x.P|E}`
pub fn comprehension_row() -> BinaryRow
    ensures { result ≡ spec.comprehension_row }
{
    binary(
        Pattern::Predicate,
        Pattern::Type(Letter::A),
        Pattern::Set(Letter::A),
    )
}

/// `{E|P}`
pub fn builder_row() -> BinaryRow
    ensures { result ≡ spec.builder_row }
{
    binary(
        Pattern::Type(Letter::A),
        Pattern::Predicate,
        Pattern::Set(Letter::A),
    )
}

/// `UNION x.P|E` and `INTER x.P|E`
pub fn gathering_row() -> BinaryRow
    ensures { result ≡ spec.gathering_row }
{
    binary(
        Pattern::Predicate,
        Pattern::Set(Letter::A),
        Pattern::Set(Letter::A),
    )
}

/// `%p.P|E`
pub fn lambda_row() -> TernaryRow
    ensures { result ≡ spec.lambda_row }
{
    TernaryRow {
        first: Pattern::Type(Letter::A),
        second: Pattern::Predicate,
        third: Pattern::Type(Letter::B),
        whole: Pattern::Relation(Letter::A, Letter::B),
    }
}

/// `f(E) := F`
pub fn assignment_at_row() -> TernaryRow
    ensures { result ≡ spec.assignment_at_row }
{
    TernaryRow {
        first: Pattern::Relation(Letter::A, Letter::B),
        second: Pattern::Type(Letter::A),
        third: Pattern::Type(Letter::B),
        whole: Pattern::Predicate,
    }
}

/// `x := E`
pub fn assignment_row() -> BinaryRow
    ensures { result ≡ spec.assignment_row }
{
    let one = Pattern::Type(Letter::A);
    binary(one, one, Pattern::Predicate)
}

/// `x :: S`
pub fn choice_row() -> BinaryRow
    ensures { result ≡ spec.choice_row }
{
    binary(
        Pattern::Type(Letter::A),
        Pattern::Set(Letter::A),
        Pattern::Predicate,
    )
}

/// A carrier set with this number.
pub fn carrier_row(place: u32) -> UnaryRow
    ensures { result ≡ spec.carrier_row place }
{
    unary(Pattern::Atoms(place), Pattern::Predicate)
}
