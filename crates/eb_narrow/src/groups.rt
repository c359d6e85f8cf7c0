//! The groups of the operators of narrow terms.
ghost use Rattle.std.specs.Prelude.{◌≡◌};
ghost use Rattle.eb_narrow.specs.Groups as spec;

use eb_syntax::{Call, Operator, Prefix};
use eb_term::{Binary, Binder, Head, Many, Term, Unary};

/// A group of the operators of narrow terms, by which their rules stand together.
#[derive(Clone, Copy, Debug, PartialEq, Eq)]
pub enum Group {
    /// Truths and connectives, `=` and `<=`, numbers, pairs, literals, references and variables.
    Base,
    /// Memberships and operations of sets, and what is asked of a set.
    Sets,
    /// Operations of relations.
    Relations,
    /// What is made of a range, and the choice of a set by a predicate.
    Binders,
}

fn by_operator(operator: Operator) -> Option<Group>
    ensures { result ≡ spec.by_operator operator }
{
    match operator {
        Operator::And
        | Operator::Or
        | Operator::Implies
        | Operator::Equivalent
        | Operator::Equal
        | Operator::AtMost
        | Operator::MapsTo
        | Operator::Plus
        | Operator::Minus
        | Operator::Times
        | Operator::Divide
        | Operator::Modulo
        | Operator::Power => Some(Group::Base),
        Operator::MemberOf
        | Operator::SubsetOf
        | Operator::Union
        | Operator::Intersection
        | Operator::Difference
        | Operator::Product
        | Operator::UpTo => Some(Group::Sets),
        Operator::ForwardComposition
        | Operator::DomainRestriction
        | Operator::DomainSubtraction
        | Operator::RangeRestriction
        | Operator::RangeSubtraction
        | Operator::Override
        | Operator::DirectProduct
        | Operator::ParallelProduct
        | Operator::Image
        | Operator::Apply => Some(Group::Relations),
        _ => None,
    }
}

fn by_call(call: Call) -> Option<Group>
    ensures { result ≡ spec.by_call call }
{
    match call {
        Call::BoolOf => Some(Group::Base),
        Call::Cardinality | Call::Minimum | Call::Maximum | Call::GeneralizedIntersection => {
            Some(Group::Sets)
        }
        Call::Domain | Call::Range => Some(Group::Relations),
        Call::PowerSet | Call::NonemptyPowerSet | Call::GeneralizedUnion | Call::Finite => None,
    }
}

fn by_unary(operator: Unary) -> Option<Group>
    ensures { result ≡ spec.by_unary operator }
{
    match operator {
        Unary::Prefix(Prefix::Not) | Unary::Defined | Unary::Part(_) => Some(Group::Base),
        Unary::Prefix(Prefix::Minus) => None,
        Unary::Call(call) => by_call(call),
        Unary::Inverse | Unary::Functional => Some(Group::Relations),
    }
}

fn by_binary(operator: Binary) -> Option<Group>
    ensures { result ≡ spec.by_binary operator }
{
    match operator {
        Binary::Operator(operator) => by_operator(operator),
        Binary::Both => Some(Group::Base),
        Binary::If => Some(Group::Binders),
    }
}

fn by_many(operator: Many) -> Option<Group>
    ensures { result ≡ spec.by_many operator }
{
    match operator {
        Many::Extension => Some(Group::Sets),
        Many::Partition => None,
    }
}

fn by_binder(binder: Binder) -> Option<Group>
    ensures { result ≡ spec.by_binder binder }
{
    match binder {
        Binder::ForAll => None,
        Binder::Exists | Binder::Collect => Some(Group::Binders),
    }
}

/// The group of the term's operator, none where it is no operator of narrow terms.
pub fn group_of(term: &Term) -> Option<Group>
    ensures { result ≡ spec.group_of term.now }
{
    match &term.head {
        Head::Truth(_) | Head::Literal(_, _) | Head::Reference(_, _) | Head::Variable(_, _, _) => {
            Some(Group::Base)
        }
        Head::Infinite(_) | Head::Identity(_) | Head::Projection(_, _, _) => None,
        Head::Unary(operator, _) => by_unary(*operator),
        Head::Binary(operator, _, _) => by_binary(*operator),
        Head::Many(operator, _) => by_many(*operator),
        Head::Over(binder, _, _) => by_binder(*binder),
        Head::All(binder, _, _) => by_binder(*binder),
    }
}
