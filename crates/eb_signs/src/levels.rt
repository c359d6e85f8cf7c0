ghost use Rattle.std.specs.Prelude.{◌≡◌};
ghost use Rattle.eb_signs.specs.Levels as spec;

use super::level;
use eb_syntax::{Call, Constant, Operator, Prefix};

/// The operators with one row in the table of levels.
#[derive(Clone, Copy)]
pub enum Group {
    /// `=>` and `<=>`
    Implication,
    /// `or`
    Disjunction,
    /// `&`
    Conjunction,
    /// `=`, `:` and the like
    Comparison,
    /// `|->`
    Maplet,
    /// `<->`, `-->` and the like
    Arrow,
    /// `\/`, `;` and the like
    Set,
    /// `..`
    Interval,
    /// `+` and `-`
    Sum,
    /// `*`, `/` and `mod`
    Multiplication,
    /// `^`
    Exponentiation,
    /// `f(x)`, `r[s]` and `r~`
    Post,
}

/// The row of an operator in the table of levels.
pub fn group_of(operator: Operator) -> Group
    ensures { result ≡ spec.group_of operator }
{
    match operator {
        Operator::Implies => Group::Implication,
        Operator::Equivalent => Group::Implication,
        Operator::Or => Group::Disjunction,
        Operator::And => Group::Conjunction,
        Operator::Equal => Group::Comparison,
        Operator::Unequal => Group::Comparison,
        Operator::MemberOf => Group::Comparison,
        Operator::NotMemberOf => Group::Comparison,
        Operator::SubsetOf => Group::Comparison,
        Operator::NotSubsetOf => Group::Comparison,
        Operator::ProperSubsetOf => Group::Comparison,
        Operator::NotProperSubsetOf => Group::Comparison,
        Operator::Less => Group::Comparison,
        Operator::AtMost => Group::Comparison,
        Operator::Greater => Group::Comparison,
        Operator::AtLeast => Group::Comparison,
        Operator::MapsTo => Group::Maplet,
        Operator::Relation => Group::Arrow,
        Operator::TotalRelation => Group::Arrow,
        Operator::SurjectiveRelation => Group::Arrow,
        Operator::TotalSurjectiveRelation => Group::Arrow,
        Operator::PartialFunction => Group::Arrow,
        Operator::TotalFunction => Group::Arrow,
        Operator::PartialInjection => Group::Arrow,
        Operator::TotalInjection => Group::Arrow,
        Operator::PartialSurjection => Group::Arrow,
        Operator::TotalSurjection => Group::Arrow,
        Operator::Bijection => Group::Arrow,
        Operator::Union => Group::Set,
        Operator::Intersection => Group::Set,
        Operator::Difference => Group::Set,
        Operator::Product => Group::Set,
        Operator::ForwardComposition => Group::Set,
        Operator::BackwardComposition => Group::Set,
        Operator::DomainRestriction => Group::Set,
        Operator::DomainSubtraction => Group::Set,
        Operator::RangeRestriction => Group::Set,
        Operator::RangeSubtraction => Group::Set,
        Operator::Override => Group::Set,
        Operator::DirectProduct => Group::Set,
        Operator::ParallelProduct => Group::Set,
        Operator::UpTo => Group::Interval,
        Operator::Plus => Group::Sum,
        Operator::Minus => Group::Sum,
        Operator::Times => Group::Multiplication,
        Operator::Divide => Group::Multiplication,
        Operator::Modulo => Group::Multiplication,
        Operator::Power => Group::Exponentiation,
        Operator::Apply => Group::Post,
        Operator::Image => Group::Post,
    }
}

/// Whether formulas of the level are predicates.
pub fn is_pred(level: u32) -> bool
    ensures { result ≡ spec.is_pred level }
{
    level <= level::LIT
}

/// Whether formulas of the level are expressions.
pub fn is_expr(level: u32) -> bool
    ensures { result ≡ spec.is_expr level }
{
    level::EXPR <= level
}

/// The level of what an operator of the group makes.
pub fn level_of(group: Group) -> u32
    ensures { result ≡ spec.level_of group }
{
    match group {
        Group::Implication => level::PRED,
        Group::Disjunction => level::DISJUNCTION,
        Group::Conjunction => level::CONJUNCTION,
        Group::Comparison => level::LIT,
        Group::Maplet => level::MAPLET,
        Group::Arrow => level::ARROW,
        Group::Set => level::SET,
        Group::Interval => level::RANGE,
        Group::Sum => level::SUM,
        Group::Multiplication => level::PROD,
        Group::Exponentiation => level::POWER,
        Group::Post => level::POST,
    }
}

/// Whether a formula of the level may stand to the left.
pub fn admits(group: Group, level: u32) -> bool
    ensures { result ≡ spec.admits group level }
{
    match group {
        Group::Implication => level::DISJUNCTION <= level && level <= level::LIT,
        Group::Disjunction => level == level::DISJUNCTION || level == level::LIT,
        Group::Conjunction => level::CONJUNCTION <= level && level <= level::LIT,
        Group::Comparison => level::EXPR <= level,
        Group::Maplet => level::MAPLET <= level,
        Group::Arrow => level::ARROW <= level,
        Group::Set => level::SET <= level,
        Group::Interval => level::SUM <= level,
        Group::Sum => level::SUM <= level,
        Group::Multiplication => level::PROD <= level,
        Group::Exponentiation => level::POST <= level,
        Group::Post => level::POST <= level,
    }
}

/// The least level of what stands to the right, or in the brackets.
pub fn right_of(group: Group) -> u32
    ensures { result ≡ spec.right_of group }
{
    match group {
        Group::Implication => level::DISJUNCTION,
        Group::Disjunction => level::LIT,
        Group::Conjunction => level::LIT,
        Group::Comparison => level::EXPR,
        Group::Maplet => level::ARROW,
        Group::Arrow => level::SET,
        Group::Set => level::RANGE,
        Group::Interval => level::SUM,
        Group::Sum => level::PROD,
        Group::Multiplication => level::NEG,
        Group::Exponentiation => level::NEG,
        Group::Post => level::EXPR,
    }
}

fn joins_predicates(group: Group) -> bool
    ensures { result ≡ spec.joins_predicates group }
{
    matches!(
        group,
        Group::Implication | Group::Disjunction | Group::Conjunction
    )
}

/// Whether a formula of the level may stand to the right, or in the brackets.
pub fn takes(group: Group, level: u32) -> bool
    ensures { result ≡ spec.takes group level }
{
    right_of(group) <= level
        && (if joins_predicates(group) {
            is_pred(level)
        } else {
            true
        })
}

/// The level of a constant.
pub fn constant_level(constant: Constant) -> u32
    ensures { result ≡ spec.constant_level constant }
{
    match constant {
        Constant::Truth => level::LIT,
        Constant::Falsity => level::LIT,
        _ => level::PRIM,
    }
}

/// The level of what a prefix makes.
pub fn prefix_level(prefix: Prefix) -> u32
    ensures { result ≡ spec.prefix_level prefix }
{
    match prefix {
        Prefix::Not => level::LIT,
        Prefix::Minus => level::NEG,
    }
}

/// Whether a formula of the level may stand behind the prefix.
pub fn prefix_takes(prefix: Prefix, level: u32) -> bool
    ensures { result ≡ spec.prefix_takes prefix level }
{
    match prefix {
        Prefix::Not => level == level::LIT,
        Prefix::Minus => level::NEG <= level,
    }
}

/// The level of a call.
pub fn call_level(call: Call) -> u32
    ensures { result ≡ spec.call_level call }
{
    match call {
        Call::Finite => level::LIT,
        _ => level::PRIM,
    }
}

/// Whether a formula of the level may stand in the parentheses of the call.
pub fn call_takes(call: Call, level: u32) -> bool
    ensures { result ≡ spec.call_takes call level }
{
    match call {
        Call::BoolOf => is_pred(level),
        _ => is_expr(level),
    }
}
