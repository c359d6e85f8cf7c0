ghost use Rattle.std.specs.Prelude.{◌≡◌};
ghost use Rattle.rules_base.specs.Connectives as spec;

use eb_operations::{Truth3, connective};
use eb_syntax::Operator;

/// A connective of two predicates in narrow form.
#[derive(Clone, Copy)]
pub enum Connective {
    And,
    Or,
    Implies,
    Equivalent,
    /// The conjunction that is Undefined where a side is.
    Both,
}

impl Connective {
    /// The truth by those of the sides.
    pub fn truth(self, left: Truth3, right: Truth3) -> Truth3
        ensures { result ≡ spec.truth_by self left right }
    {
        match self {
            Connective::And => connective(Operator::And, left, right),
            Connective::Or => connective(Operator::Or, left, right),
            Connective::Implies => connective(Operator::Implies, left, right),
            Connective::Equivalent => connective(Operator::Equivalent, left, right),
            Connective::Both => left.both(right),
        }
    }
}
