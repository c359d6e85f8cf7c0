//! Each kind as a test.
ghost use Rattle.std.specs.Prelude.{◌≡◌};
ghost use Rattle.operator_kinds.specs.Operators as spec;

use eb_syntax::Operator;

/// Whether it is a relation whose right side may be a form: `:`, `/:`, `<:`, `/<:`, `<<:`, `/<<:`.
pub fn is_membership(operator: Operator) -> bool
    ensures { result ≡ spec.is_membership operator }
{
    matches!(
        operator,
        Operator::MemberOf
            | Operator::NotMemberOf
            | Operator::SubsetOf
            | Operator::NotSubsetOf
            | Operator::ProperSubsetOf
            | Operator::NotProperSubsetOf
    )
}

/// Whether it makes a set of pairs: `**`.
pub fn is_product(operator: Operator) -> bool
    ensures { result ≡ spec.is_product operator }
{
    matches!(operator, Operator::Product)
}

/// Whether it makes a set of relations.
pub fn is_arrow(operator: Operator) -> bool
    ensures { result ≡ spec.is_arrow operator }
{
    matches!(
        operator,
        Operator::Relation
            | Operator::TotalRelation
            | Operator::SurjectiveRelation
            | Operator::TotalSurjectiveRelation
            | Operator::PartialFunction
            | Operator::TotalFunction
            | Operator::PartialInjection
            | Operator::TotalInjection
            | Operator::PartialSurjection
            | Operator::TotalSurjection
            | Operator::Bijection
    )
}

/// Whether it is an arrow and the domain of its relations is all of the left side.
pub fn is_total(operator: Operator) -> bool
    ensures { result ≡ spec.is_total operator }
{
    matches!(
        operator,
        Operator::TotalRelation
            | Operator::TotalSurjectiveRelation
            | Operator::TotalFunction
            | Operator::TotalInjection
            | Operator::TotalSurjection
            | Operator::Bijection
    )
}

/// Whether it is an arrow and the range of its relations is all of the right side.
pub fn is_surjective(operator: Operator) -> bool
    ensures { result ≡ spec.is_surjective operator }
{
    matches!(
        operator,
        Operator::SurjectiveRelation
            | Operator::TotalSurjectiveRelation
            | Operator::PartialSurjection
            | Operator::TotalSurjection
            | Operator::Bijection
    )
}

/// Whether it is an arrow whose relations relate no value to two.
pub fn is_function(operator: Operator) -> bool
    ensures { result ≡ spec.is_function operator }
{
    matches!(
        operator,
        Operator::PartialFunction
            | Operator::TotalFunction
            | Operator::PartialInjection
            | Operator::TotalInjection
            | Operator::PartialSurjection
            | Operator::TotalSurjection
            | Operator::Bijection
    )
}

/// Whether it is an arrow whose relations relate no value to two and no two values to one.
pub fn is_injection(operator: Operator) -> bool
    ensures { result ≡ spec.is_injection operator }
{
    matches!(
        operator,
        Operator::PartialInjection | Operator::TotalInjection | Operator::Bijection
    )
}
