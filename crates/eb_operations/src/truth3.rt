ghost use Rattle.std.specs.Prelude.{◌≡◌, IfSome};
ghost use Rattle.eb_operations.specs.Truths as spec;
ghost use Rattle.eb_operations.specs.declared.truth3.Truth3.{Truth3 as TheTruth};

use eb_syntax::Operator;

/// The truth of a predicate.
#[derive(Clone, Copy, Debug, PartialEq, Eq)]
pub enum Truth3 {
    True,
    False,
    Undefined,
}

impl Truth3 {
    /// The truth of a test.
    pub fn of(test: bool) -> Truth3
        ensures { result ≡ spec.truth_of test }
    {
        if test { Truth3::True } else { Truth3::False }
    }

    /// Whether it is True, neither False nor Undefined.
    pub fn is_true(self) -> bool
        ensures { result ≡ spec.is_true self }
    {
        match self {
            Truth3::True => true,
            Truth3::False | Truth3::Undefined => false,
        }
    }

    /// The truth of a test, and Undefined where there is none.
    pub fn tested(test: Option<bool>) -> Truth3
        ensures { result ≡ spec.tested test }
    {
        match test {
            Some(test) => Truth3::of(test),
            None => Truth3::Undefined,
        }
    }

    /// `not P`
    pub fn negation(self) -> Truth3
        ensures { result ≡ spec.negation self }
    {
        match self {
            Truth3::True => Truth3::False,
            Truth3::False => Truth3::True,
            Truth3::Undefined => Truth3::Undefined,
        }
    }

    /// `P <=> Q`
    pub fn equivalence(self, other: Truth3) -> Truth3
        ensures { result ≡ spec.equivalence self other }
    {
        match (self, other) {
            (Truth3::Undefined, _) | (_, Truth3::Undefined) => Truth3::Undefined,
            (Truth3::True, Truth3::True) | (Truth3::False, Truth3::False) => Truth3::True,
            (Truth3::True, Truth3::False) | (Truth3::False, Truth3::True) => Truth3::False,
        }
    }

    /// The conjunction that is Undefined where a side is.
    pub fn both(self, other: Truth3) -> Truth3
        ensures { result ≡ spec.both self other }
    {
        match (self, other) {
            (Truth3::True, Truth3::True) => Truth3::True,
            (Truth3::Undefined, _) | (_, Truth3::Undefined) => Truth3::Undefined,
            _ => Truth3::False,
        }
    }

    /// The disjunction that is Undefined where a side is.
    pub fn either(self, other: Truth3) -> Truth3
        ensures { result ≡ spec.either self other }
    {
        match (self, other) {
            (Truth3::Undefined, _) | (_, Truth3::Undefined) => Truth3::Undefined,
            (Truth3::False, Truth3::False) => Truth3::False,
            _ => Truth3::True,
        }
    }
}

/// The truth of a connective where its left side decides it, none where the right side is to be looked at.
pub fn decided(operator: Operator, left: Truth3) -> Option<Truth3>
    ensures { IfSome result (λ t. (right : TheTruth) → t ≡ spec.connective operator left right) }
{
    match (operator, left) {
        (Operator::And, Truth3::False) => Some(Truth3::False),
        (Operator::Or, Truth3::True) | (Operator::Implies, Truth3::False) => Some(Truth3::True),
        (Operator::And | Operator::Or | Operator::Implies, Truth3::Undefined) => {
            Some(Truth3::Undefined)
        }
        _ => None,
    }
}

/// `P & Q`, `P or Q`, `P => Q` or `P <=> Q`; Undefined of another operator.
pub fn connective(operator: Operator, left: Truth3, right: Truth3) -> Truth3
    ensures { result ≡ spec.connective operator left right }
{
    match (operator, left) {
        (Operator::And, Truth3::True)
        | (Operator::Or, Truth3::False)
        | (Operator::Implies, Truth3::True) => right,
        (Operator::And, Truth3::False) => Truth3::False,
        (Operator::Or, Truth3::True) | (Operator::Implies, Truth3::False) => Truth3::True,
        (Operator::Equivalent, _) => left.equivalence(right),
        _ => Truth3::Undefined,
    }
}
