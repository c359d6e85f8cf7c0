//! What formulas stand in.
ghost use Rattle.std.specs.Prelude.{◌≡◌, IfOk};
ghost use Rattle.eb_lowering.specs.Lowering as spec;

use crate::leaves::no_value;
use eb_term::{SharedType, Term};
use eb_value::EbType;
use narrow_terms::copied;
use sqlite_items::Items;
use std::alloc::{AllocError, Global};

/// What stands at the range of an identifier that has no anchor.
#[derive(Clone, Copy, Debug, PartialEq, Eq)]
pub enum Ranges {
    /// The type whose values it takes.
    Typed,
    /// A type that tells the identifier's number, for notes: `INT ** S`, where S is the carrier set with this number.
    Told,
}

/// The types of identifiers and marks, and the terms of declared identifiers, both by their numbers; and what stands at ranges.
#[derive(Drop)]
pub struct Setting {
    pub types: Items<SharedType>,
    /// None for what is bound, and for a mark.
    pub known: Items<Option<Term>>,
    pub ranges: Ranges,
}

/// The type that tells a number.
fn telling(alloc: Global, number: u32) -> Result<EbType, AllocError>
    ensures { IfOk result (λ t. t ≡ spec.telling number) }
{
    EbType::product(alloc, EbType::integer(), EbType::carrier(number))
}

impl Setting {
    /// The type of an identifier or a mark, BOOL where there is none. The only error is want of memory.
    pub(crate) fn type_at(&self, alloc: Global, number: u32) -> Result<SharedType, AllocError>
        ensures { IfOk result (λ t. t ≡ spec.type_at self.now number) }
    {
        match self.types.get(number as usize) {
            Some(ty) => ty.again(),
            None => SharedType::new(alloc, EbType::boolean()),
        }
    }

    /// What stands at the range of an identifier without an anchor. The only error is want of memory.
    pub(crate) fn range_at(&self, alloc: Global, number: u32) -> Result<SharedType, AllocError>
        ensures { IfOk result (λ t. t ≡ spec.range_at self.now number) }
    {
        match self.ranges {
            Ranges::Typed => self.type_at(alloc, number),
            Ranges::Told => {
                let ty = telling(alloc, number)?;
                SharedType::new(alloc, ty)
            }
        }
    }

    /// What stands for an expression of the type of this number without a value. The only error is want of memory.
    pub(crate) fn missing(&self, alloc: Global, number: u32) -> Result<Term, AllocError>
        ensures { IfOk result (λ t. t ≡ spec.no_value (spec.type_at self.now number)) }
    {
        let ty = self.type_at(alloc, number)?;
        let ty = ty.get().copied(alloc)?;
        no_value(alloc, ty)
    }

    /// The term of what is declared, or one without a value where there is none. The only error is want of memory.
    pub(crate) fn declared(&self, alloc: Global, number: u32) -> Result<Term, AllocError>
        ensures { IfOk result (λ t. t ≡ spec.declared_term self.now number) }
    {
        match self.known.get(number as usize) {
            Some(Some(term)) => copied(alloc, term),
            Some(None) => self.missing(alloc, number),
            None => self.missing(alloc, number),
        }
    }
}
