//! The operators that have rules here.
ghost use Rattle.std.specs.Prelude.{◌≡◌};
ghost use Rattle.rules_base.specs.Operators as spec;

use crate::connective::Connective;
use eb_syntax::{Call, Operator, Prefix};
use eb_term::{Binary, Side, Unary};
use rules_integers::Arithmetic;

/// An operator on one part.
#[derive(Clone, Copy)]
pub enum UnaryRule {
    /// `not P`
    Negation,
    /// Whether an expression has a value.
    Defined,
    /// `bool(P)`
    AsValue,
    /// The first or the second of a pair.
    Part(Side),
}

/// An operator on two parts.
#[derive(Clone, Copy)]
pub enum BinaryRule {
    Connective(Connective),
    /// `E = F`
    Equal,
    /// `a <= b`
    AtMost,
    /// `E |-> F`
    Pair,
    Arithmetic(Arithmetic),
}

impl UnaryRule {
    /// The rule of an operator of terms. None exactly where it has none here.
    pub fn of(operator: Unary) -> Option<UnaryRule>
        ensures { result ≡ spec.unary_rule operator }
    {
        match operator {
            Unary::Prefix(Prefix::Not) => Some(UnaryRule::Negation),
            Unary::Call(Call::BoolOf) => Some(UnaryRule::AsValue),
            Unary::Defined => Some(UnaryRule::Defined),
            Unary::Part(side) => Some(UnaryRule::Part(side)),
            _ => None,
        }
    }
}

impl BinaryRule {
    /// The rule of an operator of terms. None exactly where it has none here.
    pub fn of(operator: Binary) -> Option<BinaryRule>
        ensures { result ≡ spec.binary_rule operator }
    {
        match operator {
            Binary::Operator(operator) => operator_rule(operator),
            Binary::Both => Some(BinaryRule::Connective(Connective::Both)),
            Binary::If => None,
        }
    }
}

fn operator_rule(operator: Operator) -> Option<BinaryRule>
    ensures { result ≡ spec.operator_rule operator }
{
    match operator {
        Operator::And => Some(BinaryRule::Connective(Connective::And)),
        Operator::Or => Some(BinaryRule::Connective(Connective::Or)),
        Operator::Implies => Some(BinaryRule::Connective(Connective::Implies)),
        Operator::Equivalent => Some(BinaryRule::Connective(Connective::Equivalent)),
        Operator::Equal => Some(BinaryRule::Equal),
        Operator::AtMost => Some(BinaryRule::AtMost),
        Operator::MapsTo => Some(BinaryRule::Pair),
        Operator::Plus => Some(BinaryRule::Arithmetic(Arithmetic::Sum)),
        Operator::Minus => Some(BinaryRule::Arithmetic(Arithmetic::Difference)),
        Operator::Times => Some(BinaryRule::Arithmetic(Arithmetic::Product)),
        Operator::Divide => Some(BinaryRule::Arithmetic(Arithmetic::Quotient)),
        Operator::Modulo => Some(BinaryRule::Arithmetic(Arithmetic::Remainder)),
        Operator::Power => Some(BinaryRule::Arithmetic(Arithmetic::Power)),
        _ => None,
    }
}
