ghost use Rattle.std.specs.Prelude.{◌≡◌};
ghost use Rattle.eb_parser.specs.Signs as signs;

use eb_signs::Sign;
use eb_syntax::{Binder, Call, Constant, Operator, Prefix, Quantifier};

/// The sign of a constant.
pub(crate) fn constant_sign(constant: Constant) -> Sign
    ensures { result ≡ signs.constant_sign constant }
{
    match constant {
        Constant::Truth => Sign::Truth,
        Constant::Falsity => Sign::Falsity,
        Constant::Integers => Sign::Integers,
        Constant::Naturals => Sign::Naturals,
        Constant::PositiveNaturals => Sign::PositiveNaturals,
        Constant::Booleans => Sign::Booleans,
        Constant::TrueValue => Sign::TrueValue,
        Constant::FalseValue => Sign::FalseValue,
        Constant::Identity => Sign::Identity,
        Constant::FirstProjection => Sign::FirstProjection,
        Constant::SecondProjection => Sign::SecondProjection,
        Constant::EmptySet => Sign::EmptySet,
    }
}

/// The sign of an operator with one part behind it.
pub(crate) fn prefix_sign(prefix: Prefix) -> Sign
    ensures { result ≡ signs.prefix_sign prefix }
{
    match prefix {
        Prefix::Not => Sign::Not,
        Prefix::Minus => Sign::Minus,
    }
}

/// The word of a call.
pub(crate) fn call_sign(call: Call) -> Sign
    ensures { result ≡ signs.call_sign call }
{
    match call {
        Call::PowerSet => Sign::PowerSet,
        Call::NonemptyPowerSet => Sign::NonemptyPowerSet,
        Call::Cardinality => Sign::Cardinality,
        Call::Minimum => Sign::Minimum,
        Call::Maximum => Sign::Maximum,
        Call::Domain => Sign::Domain,
        Call::Range => Sign::Range,
        Call::GeneralizedUnion => Sign::GeneralizedUnion,
        Call::GeneralizedIntersection => Sign::GeneralizedIntersection,
        Call::BoolOf => Sign::BoolOf,
        Call::Finite => Sign::Finite,
    }
}

/// The sign of a quantifier.
pub(crate) fn quantifier_sign(quantifier: Quantifier) -> Sign
    ensures { result ≡ signs.quantifier_sign quantifier }
{
    match quantifier {
        Quantifier::ForAll => Sign::ForAll,
        Quantifier::Exists => Sign::Exists,
    }
}

/// The sign of a binder of expressions.
pub(crate) fn binder_sign(binder: Binder) -> Sign
    ensures { result ≡ signs.binder_sign binder }
{
    match binder {
        Binder::Lambda => Sign::Lambda,
        Binder::Union => Sign::QuantifiedUnion,
        Binder::Intersection => Sign::QuantifiedIntersection,
    }
}

/// The sign of an operator between its two parts; of an application and an image the bracket that opens.
pub(crate) fn operator_sign(operator: Operator) -> Sign
    ensures { result ≡ signs.operator_sign operator }
{
    match operator {
        Operator::Implies => Sign::Implies,
        Operator::Equivalent => Sign::Equivalent,
        Operator::Or => Sign::Or,
        Operator::And => Sign::And,
        Operator::Equal => Sign::Equal,
        Operator::Unequal => Sign::Unequal,
        Operator::MemberOf => Sign::MemberOf,
        Operator::NotMemberOf => Sign::NotMemberOf,
        Operator::SubsetOf => Sign::SubsetOf,
        Operator::NotSubsetOf => Sign::NotSubsetOf,
        Operator::ProperSubsetOf => Sign::ProperSubsetOf,
        Operator::NotProperSubsetOf => Sign::NotProperSubsetOf,
        Operator::Less => Sign::Less,
        Operator::AtMost => Sign::AtMost,
        Operator::Greater => Sign::Greater,
        Operator::AtLeast => Sign::AtLeast,
        Operator::MapsTo => Sign::MapsTo,
        Operator::Relation => Sign::Relation,
        Operator::TotalRelation => Sign::TotalRelation,
        Operator::SurjectiveRelation => Sign::SurjectiveRelation,
        Operator::TotalSurjectiveRelation => Sign::TotalSurjectiveRelation,
        Operator::PartialFunction => Sign::PartialFunction,
        Operator::TotalFunction => Sign::TotalFunction,
        Operator::PartialInjection => Sign::PartialInjection,
        Operator::TotalInjection => Sign::TotalInjection,
        Operator::PartialSurjection => Sign::PartialSurjection,
        Operator::TotalSurjection => Sign::TotalSurjection,
        Operator::Bijection => Sign::Bijection,
        Operator::Union => Sign::Union,
        Operator::Intersection => Sign::Intersection,
        Operator::Difference => Sign::Difference,
        Operator::Product => Sign::Product,
        Operator::ForwardComposition => Sign::ForwardComposition,
        Operator::BackwardComposition => Sign::BackwardComposition,
        Operator::DomainRestriction => Sign::DomainRestriction,
        Operator::DomainSubtraction => Sign::DomainSubtraction,
        Operator::RangeRestriction => Sign::RangeRestriction,
        Operator::RangeSubtraction => Sign::RangeSubtraction,
        Operator::Override => Sign::Override,
        Operator::DirectProduct => Sign::DirectProduct,
        Operator::ParallelProduct => Sign::ParallelProduct,
        Operator::UpTo => Sign::UpTo,
        Operator::Plus => Sign::Plus,
        Operator::Minus => Sign::Minus,
        Operator::Times => Sign::Times,
        Operator::Divide => Sign::Divide,
        Operator::Modulo => Sign::Modulo,
        Operator::Power => Sign::Power,
        Operator::Apply => Sign::LeftParenthesis,
        Operator::Image => Sign::LeftBracket,
    }
}
