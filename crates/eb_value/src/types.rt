ghost use Rattle.std.specs.Prelude.{◌≡◌, ◌↔◌, IfOk, IsTrue};
ghost use Rattle.eb_value.specs.Types as spec;
ghost use Rattle.eb_value.specs.steps.SameTypes as step;

use sqlite_items::Boxed;
use std::alloc::{AllocError, Global};

/// A type of Event-B.
#[cycle(shape)]
#[derive(Drop)]
pub struct EbType {
    pub shape: Shape,
}

/// How a type is made.
#[cycle(shape)]
#[derive(Drop)]
pub enum Shape {
    Integer,
    Bool,
    /// A carrier set, by its place in the order of declaration.
    Carrier(u32),
    Product(Boxed<EbType>, Boxed<EbType>),
    Power(Boxed<EbType>),
}

impl EbType {
    /// The integers.
    pub fn integer() -> EbType
        ensures { result ≡ spec.integer }
    {
        EbType {
            shape: Shape::Integer,
        }
    }

    /// FALSE and TRUE.
    pub fn boolean() -> EbType
        ensures { result ≡ spec.boolean }
    {
        EbType { shape: Shape::Bool }
    }

    /// The carrier set at a place.
    pub fn carrier(place: u32) -> EbType
        ensures { result ≡ spec.carrier place }
    {
        EbType {
            shape: Shape::Carrier(place),
        }
    }

    /// The pairs of the two types. The only error is want of memory.
    pub fn product(alloc: Global, first: EbType, second: EbType) -> Result<EbType, AllocError>
        ensures { IfOk result (λ t. t ≡ spec.product first second) }
    {
        let first = Boxed::new(alloc, first)?;
        let second = Boxed::new(alloc, second)?;
        Ok(EbType {
            shape: Shape::Product(first, second),
        })
    }

    /// The sets of the type. The only error is want of memory.
    pub fn power(alloc: Global, members: EbType) -> Result<EbType, AllocError>
        ensures { IfOk result (λ t. t ≡ spec.power members) }
    {
        let members = Boxed::new(alloc, members)?;
        Ok(EbType {
            shape: Shape::Power(members),
        })
    }

    /// An equal type. The only error is want of memory.
    #[cycle(copying)]
    pub fn copied(&self, alloc: Global) -> Result<EbType, AllocError>
        ensures { IfOk result (λ copy. copy ≡ self.now) }
    {
        match &self.shape {
            Shape::Integer => Ok(EbType::integer()),
            Shape::Bool => Ok(EbType::boolean()),
            Shape::Carrier(place) => Ok(EbType::carrier(*place)),
            Shape::Product(first, second) => {
                let first = first.get().copied(alloc)?;
                let second = second.get().copied(alloc)?;
                EbType::product(alloc, first, second)
            }
            Shape::Power(members) => {
                let members = members.get().copied(alloc)?;
                EbType::power(alloc, members)
            }
        }
    }
}

/// Whether two types are one.
pub fn same_type(a: &EbType, b: &EbType) -> bool
    ensures { IsTrue result ↔ (a.now ≡ b.now) }
{
    is_same(a, b)
}

fn is_same(a: &EbType, b: &EbType) -> bool
    ensures { result ≡ step.same_type a.now b.now }
{
    match (&a.shape, &b.shape) {
        (Shape::Integer, Shape::Integer) | (Shape::Bool, Shape::Bool) => true,
        (Shape::Carrier(place), Shape::Carrier(other)) => *place == *other,
        (Shape::Product(s, t), Shape::Product(u, v)) => {
            is_same(s.get(), u.get()) && is_same(t.get(), v.get())
        }
        (Shape::Power(s), Shape::Power(t)) => is_same(s.get(), t.get()),
        _ => false,
    }
}
