ghost use Rattle.std.specs.Prelude.{◌≡◌};
ghost use Rattle.eb_parser.specs.Signs as signs;
ghost use Rattle.eb_parser.specs.steps.Climbing as reading;
ghost use Rattle.eb_parser.specs.steps.Tables as tables;

use eb_signs::{Group, Sign, group_of, level};
use eb_syntax::{Binder, Call, Constant, Operator, Prefix, Quantifier};

/// What follows a formula and goes on with it.
#[derive(Clone, Copy)]
pub enum Follow {
    /// An operator and its second part.
    Operator(Operator),
    /// `~`
    Inverse,
}

/// What a sign begins.
#[derive(Clone, Copy)]
pub enum Start {
    /// A constant.
    Constant(Constant),
    /// `not` or the `-` of a negative number.
    Prefix(Prefix),
    /// A quantified predicate.
    Quantifier(Quantifier),
    /// An expression that binds names.
    Binder(Binder),
    /// A word with its part in parentheses.
    Call(Call),
    /// `partition`
    Partition,
    /// A formula in parentheses.
    Parenthesis,
    /// A set in braces.
    Brace,
    /// No formula.
    Other,
}

/// What the sign begins.
pub(crate) fn start_of(sign: Sign) -> Start
    ensures { result ≡ tables.start_of sign }
{
    match sign {
        Sign::Truth => Start::Constant(Constant::Truth),
        Sign::Falsity => Start::Constant(Constant::Falsity),
        Sign::Integers => Start::Constant(Constant::Integers),
        Sign::Naturals => Start::Constant(Constant::Naturals),
        Sign::PositiveNaturals => Start::Constant(Constant::PositiveNaturals),
        Sign::Booleans => Start::Constant(Constant::Booleans),
        Sign::TrueValue => Start::Constant(Constant::TrueValue),
        Sign::FalseValue => Start::Constant(Constant::FalseValue),
        Sign::Identity => Start::Constant(Constant::Identity),
        Sign::FirstProjection => Start::Constant(Constant::FirstProjection),
        Sign::SecondProjection => Start::Constant(Constant::SecondProjection),
        Sign::EmptySet => Start::Constant(Constant::EmptySet),
        Sign::Not => Start::Prefix(Prefix::Not),
        Sign::Minus => Start::Prefix(Prefix::Minus),
        Sign::ForAll => Start::Quantifier(Quantifier::ForAll),
        Sign::Exists => Start::Quantifier(Quantifier::Exists),
        Sign::Lambda => Start::Binder(Binder::Lambda),
        Sign::QuantifiedUnion => Start::Binder(Binder::Union),
        Sign::QuantifiedIntersection => Start::Binder(Binder::Intersection),
        Sign::PowerSet => Start::Call(Call::PowerSet),
        Sign::NonemptyPowerSet => Start::Call(Call::NonemptyPowerSet),
        Sign::Cardinality => Start::Call(Call::Cardinality),
        Sign::Minimum => Start::Call(Call::Minimum),
        Sign::Maximum => Start::Call(Call::Maximum),
        Sign::Domain => Start::Call(Call::Domain),
        Sign::Range => Start::Call(Call::Range),
        Sign::GeneralizedUnion => Start::Call(Call::GeneralizedUnion),
        Sign::GeneralizedIntersection => Start::Call(Call::GeneralizedIntersection),
        Sign::BoolOf => Start::Call(Call::BoolOf),
        Sign::Finite => Start::Call(Call::Finite),
        Sign::Partition => Start::Partition,
        Sign::LeftParenthesis => Start::Parenthesis,
        Sign::LeftBrace => Start::Brace,
        _ => Start::Other,
    }
}

/// How the sign goes on with a formula before it.
pub(crate) fn follow_of(sign: Sign) -> Option<Follow>
    ensures { result ≡ tables.follow_of sign }
{
    let operator = match sign {
        Sign::Implies => Operator::Implies,
        Sign::Equivalent => Operator::Equivalent,
        Sign::Or => Operator::Or,
        Sign::And => Operator::And,
        Sign::Equal => Operator::Equal,
        Sign::Unequal => Operator::Unequal,
        Sign::MemberOf => Operator::MemberOf,
        Sign::NotMemberOf => Operator::NotMemberOf,
        Sign::SubsetOf => Operator::SubsetOf,
        Sign::NotSubsetOf => Operator::NotSubsetOf,
        Sign::ProperSubsetOf => Operator::ProperSubsetOf,
        Sign::NotProperSubsetOf => Operator::NotProperSubsetOf,
        Sign::Less => Operator::Less,
        Sign::AtMost => Operator::AtMost,
        Sign::Greater => Operator::Greater,
        Sign::AtLeast => Operator::AtLeast,
        Sign::MapsTo => Operator::MapsTo,
        Sign::Relation => Operator::Relation,
        Sign::TotalRelation => Operator::TotalRelation,
        Sign::SurjectiveRelation => Operator::SurjectiveRelation,
        Sign::TotalSurjectiveRelation => Operator::TotalSurjectiveRelation,
        Sign::PartialFunction => Operator::PartialFunction,
        Sign::TotalFunction => Operator::TotalFunction,
        Sign::PartialInjection => Operator::PartialInjection,
        Sign::TotalInjection => Operator::TotalInjection,
        Sign::PartialSurjection => Operator::PartialSurjection,
        Sign::TotalSurjection => Operator::TotalSurjection,
        Sign::Bijection => Operator::Bijection,
        Sign::Union => Operator::Union,
        Sign::Intersection => Operator::Intersection,
        Sign::Difference => Operator::Difference,
        Sign::Product => Operator::Product,
        Sign::ForwardComposition => Operator::ForwardComposition,
        Sign::BackwardComposition => Operator::BackwardComposition,
        Sign::DomainRestriction => Operator::DomainRestriction,
        Sign::DomainSubtraction => Operator::DomainSubtraction,
        Sign::RangeRestriction => Operator::RangeRestriction,
        Sign::RangeSubtraction => Operator::RangeSubtraction,
        Sign::Override => Operator::Override,
        Sign::DirectProduct => Operator::DirectProduct,
        Sign::ParallelProduct => Operator::ParallelProduct,
        Sign::UpTo => Operator::UpTo,
        Sign::Plus => Operator::Plus,
        Sign::Minus => Operator::Minus,
        Sign::Times => Operator::Times,
        Sign::Divide => Operator::Divide,
        Sign::Modulo => Operator::Modulo,
        Sign::Power => Operator::Power,
        Sign::LeftParenthesis => Operator::Apply,
        Sign::LeftBracket => Operator::Image,
        Sign::Inverse => return Some(Follow::Inverse),
        _ => return None,
    };
    Some(Follow::Operator(operator))
}

/// The row of what goes on with a formula.
pub(crate) fn row_of(follow: Follow) -> Group
    ensures { result ≡ tables.row_of follow }
{
    match follow {
        Follow::Operator(operator) => group_of(operator),
        Follow::Inverse => Group::Post,
    }
}

/// The sign that closes behind the second part of an operator: the closing bracket of an application and an image.
pub fn closing_sign(operator: Operator) -> Option<Sign>
    ensures { result ≡ signs.closing_sign operator }
{
    match operator {
        Operator::Apply => Some(Sign::RightParenthesis),
        Operator::Image => Some(Sign::RightBracket),
        _ => None,
    }
}

/// The least level of what a call is of.
pub(crate) fn call_least(call: Call) -> u32
    ensures { result ≡ reading.call_least call }
{
    match call {
        Call::BoolOf => level::PRED,
        _ => level::EXPR,
    }
}
