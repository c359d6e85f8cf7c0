ghost use Rattle.std.specs.Prelude.{◌≡◌, ◌<◌, length, slice_get, IfOk, IfSome};
ghost use Rattle.eb_value.specs.Types.{integer};
ghost use Rattle.type_equations.specs.Depths.{IsShallow};
ghost use Rattle.type_equations.specs.Solutions as spec;
ghost use Rattle.type_equations.specs.Stores.{ArePlaced};

use crate::store::{Entry, Store};
use eb_value::{EbType, Shape};
use sqlite_items::Boxed;
use std::alloc::{AllocError, Global};
use std::marker::Model;

/// The types of the numbers that were asked for, in order, each at most 1,000 deep. Contracts see the list of the types.
/// Types share their parts: it takes memory in proportion to the numbers that the equations speak of, however large the
/// types are.
#[derive(Drop)]
pub struct Solution {
    store: Store,
    asked: u32,
}

impl Model for Solution {
    ghost use Rattle.std.specs.Prelude.{List};
    ghost use Rattle.eb_value.specs.declared.types.EbType.{EbType};
    ghost use Rattle.type_equations.specs.Solutions.{solution_of, IsSolution};
    ghost use Rattle.eb_value.specs.contracts.types.EbType as ty;
    ghost use Rattle.std.specs.Coded.{coded_list};

    ghost Value = { List EbType };

    ghost coded = { coded_list ty.the_row.coded };

    ghost view = { λ s. solution_of s.store s.asked };

    ghost invariant = { λ s. IsSolution s.store s.asked };
}

/// How many steps it takes at most to write out a type.
const MOST_STEPS: u32 = 1_000_000;

/// The type of a number, written out in so many steps at most. The only error is want of memory, which also comes where it takes
/// more.
fn written(alloc: Global, store: &Store, number: u32, steps: &mut u32) -> Result<EbType, AllocError>
    requires placed { ArePlaced store.now }
    requires solved { spec.AreSolved integer store.now }
    requires there { number < length store.now }
    ensures { IfOk result (λ ty. ty ≡ spec.type_at integer store.now number) }
{
    let Some(left) = steps.checked_sub(1) else {
        return Err(AllocError);
    };
    *steps = left;
    let shape = match store.entry(number) {
        Entry::Free | Entry::Integer => Shape::Integer,
        Entry::Boolean => Shape::Bool,
        Entry::Carrier(place) => Shape::Carrier(place),
        Entry::Link(other) => {
            let ty = written(alloc, store, other, steps)?;
            return Ok(ty);
        }
        Entry::Product(first, second) => {
            let first = written(alloc, store, first, steps)?;
            let second = written(alloc, store, second, steps)?;
            Shape::Product(Boxed::new(alloc, first)?, Boxed::new(alloc, second)?)
        }
        Entry::Power(members) => {
            let members = written(alloc, store, members, steps)?;
            Shape::Power(Boxed::new(alloc, members)?)
        }
    };
    Ok(EbType { shape })
}

impl Solution {
    /// The solution of the first numbers of a store in which each has its type.
    pub(crate) fn new(store: Store, asked: u32) -> Solution
        requires { spec.IsSolution store asked }
        ensures { result ≡ spec.solution_of store asked }
    {
        Solution { store, asked }
    }

    /// How many types there are.
    pub fn len(&self) -> u32
        ensures { result ≡ length self.now }
    {
        self.asked
    }

    /// The type of a number, written out, and None exactly where the number isn't asked for. A type is at most 1,000 deep,
    /// and so is the recursion. The only error is want of memory, which also comes where it takes more than 1,000,000 steps: a type
    /// can be much larger than the equations.
    pub fn type_of(&self, alloc: Global, number: u32) -> Result<Option<EbType>, AllocError>
        ensures value { IfOk result (λ ty. ty ≡ slice_get self.now number) }
        ensures shallow { IfOk result (λ ty. IfSome ty IsShallow) }
    {
        if number < self.asked {
            let mut steps = MOST_STEPS;
            let ty = written(alloc, &self.store, number, &mut steps)?;
            Ok(Some(ty))
        } else {
            Ok(None)
        }
    }
}
