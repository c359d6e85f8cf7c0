ghost use Rattle.std.specs.Prelude.{◌≡◌, IfOk};
ghost use Rattle.eb_value.specs.Canonical.{IsCanonical};
ghost use Rattle.eb_value.specs.Types.{integer};
ghost use Rattle.eb_term.specs.Terms as spec;

use crate::operators::{Binary, Binder, Infinite, Many, Side, Unary};
use crate::shared::{SharedType, SharedValue};
use eb_value::{EbType, Shape, Value};
use sqlite_items::{Boxed, Items};
use std::alloc::{AllocError, Global};

/// Parts of pairs, from the outermost pair on.
pub type Path = Items<Side>;

/// A predicate or an expression of Event-B, or a set that is no value (a form).
#[cycle(term)]
#[derive(Drop)]
pub struct Term {
    pub head: Head,
}

/// An operator with its parts.
#[cycle(term)]
#[derive(Drop)]
pub enum Head {
    /// The predicate `true` or `false`.
    Truth(bool),
    /// A value, and its type.
    Literal(SharedValue, SharedType),
    /// What stands at a place of a list, and its type. In a problem these are the choices and then the definitions.
    Reference(u32, SharedType),
    /// The value of the binder with this number, the outermost being 0, or a part of it; and the type.
    Variable(u32, Path, SharedType),
    /// `INT`, `NAT`, `NAT1`
    Infinite(Infinite),
    /// `id` over a type
    Identity(SharedType),
    /// `prj1` or `prj2` over the product of two types
    Projection(Side, SharedType, SharedType),
    Unary(Unary, Boxed<Term>),
    Binary(Binary, Boxed<Term>, Boxed<Term>),
    Many(Many, Items<Term>),
    /// The binder over the members of a set, and its body.
    Over(Binder, Boxed<Term>, Boxed<Term>),
    /// The binder over all values of a type in the scope, and its body.
    All(Binder, SharedType, Boxed<Term>),
}

impl Term {
    /// The predicate `true` or `false`.
    pub fn truth(truth: bool) -> Term
        ensures { result ≡ spec.truth truth }
    {
        Term {
            head: Head::Truth(truth),
        }
    }

    /// The literal of a value with its type. The only error is want of memory.
    pub fn literal(alloc: Global, value: Value, ty: EbType) -> Result<Term, AllocError>
        requires { IsCanonical value }
        ensures { IfOk result (λ t. t ≡ spec.literal value ty) }
    {
        let value = SharedValue::new(alloc, value)?;
        let ty = SharedType::new(alloc, ty)?;
        Ok(Term {
            head: Head::Literal(value, ty),
        })
    }

    /// The literal of an integer. The only error is want of memory.
    pub fn integer(alloc: Global, n: i64) -> Result<Term, AllocError>
        ensures { IfOk result (λ t. t ≡ spec.integer n) }
    {
        Term::literal(alloc, Value::integer(n), integer_type())
    }

    /// A reference to what stands at this place. The only error is want of memory.
    pub fn reference(place: u32, ty: &SharedType) -> Result<Term, AllocError>
        ensures { IfOk result (λ t. t ≡ spec.reference place ty.now) }
    {
        let ty = ty.again()?;
        Ok(Term {
            head: Head::Reference(place, ty),
        })
    }

    /// A reference to an integer at this place. The only error is want of memory.
    pub fn integer_at(alloc: Global, place: u32) -> Result<Term, AllocError>
        ensures { IfOk result (λ t. t ≡ spec.reference place integer) }
    {
        let ty = SharedType::new(alloc, integer_type())?;
        Term::reference(place, &ty)
    }

    /// The operator with this part. The only error is want of memory.
    pub fn unary(alloc: Global, operator: Unary, part: Term) -> Result<Term, AllocError>
        ensures { IfOk result (λ t. t ≡ spec.unary operator part) }
    {
        let part = Boxed::new(alloc, part)?;
        Ok(Term {
            head: Head::Unary(operator, part),
        })
    }

    /// The operator with these parts. The only error is want of memory.
    pub fn binary(
        alloc: Global,
        operator: Binary,
        left: Term,
        right: Term,
    ) -> Result<Term, AllocError>
        ensures { IfOk result (λ t. t ≡ spec.binary operator left right) }
    {
        let left = Boxed::new(alloc, left)?;
        let right = Boxed::new(alloc, right)?;
        Ok(Term {
            head: Head::Binary(operator, left, right),
        })
    }

    /// The operator with these parts.
    pub fn many(operator: Many, parts: Items<Term>) -> Term
        ensures { result ≡ spec.many operator parts }
    {
        Term {
            head: Head::Many(operator, parts),
        }
    }

    /// The binder over the members of the range, with this body. The only error is want of memory.
    pub fn over(alloc: Global, binder: Binder, range: Term, body: Term) -> Result<Term, AllocError>
        ensures { IfOk result (λ t. t ≡ spec.over binder range body) }
    {
        let range = Boxed::new(alloc, range)?;
        let body = Boxed::new(alloc, body)?;
        Ok(Term {
            head: Head::Over(binder, range, body),
        })
    }

    /// The binder over all values of a type, with this body. The only error is want of memory.
    pub fn all(
        alloc: Global,
        binder: Binder,
        ty: &SharedType,
        body: Term,
    ) -> Result<Term, AllocError>
        ensures { IfOk result (λ t. t ≡ spec.all binder ty.now body) }
    {
        let ty = ty.again()?;
        let body = Boxed::new(alloc, body)?;
        Ok(Term {
            head: Head::All(binder, ty, body),
        })
    }
}

fn integer_type() -> EbType
    ensures { result ≡ integer }
{
    EbType {
        shape: Shape::Integer,
    }
}
