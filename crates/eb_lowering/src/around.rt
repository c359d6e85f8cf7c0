//! The binders around a term.
ghost use Rattle.std.specs.Prelude.{◌≡◌, ◌++◌, ◌-◌, [], ◌∷◌, OnOk, IfOk, take, length};
ghost use Rattle.std.specs.Option.{option_copied};
ghost use Rattle.eb_term.specs.Terms as term;
ghost use Rattle.eb_lowering.specs.Lowering as spec;

use crate::setting::Setting;
use eb_term::{Head, Path, SharedType, Term};
use sqlite_items::Items;
use std::alloc::{AllocError, Global};

/// An identifier, by its number, and where it stands in a pair.
#[derive(Drop)]
pub struct Leaf {
    pub number: u32,
    pub path: Path,
}

/// An identifier that is bound: its number, and the binder whose value it is, or is a part of. The outermost binder is 0.
#[derive(Drop)]
pub struct Place {
    pub number: u32,
    pub binder: u32,
    pub path: Path,
}

/// The binders around a term: how many there are, and the identifiers that they bind, the innermost last.
#[derive(Drop)]
pub struct Around {
    pub depth: u32,
    pub bound: Items<Place>,
}

impl Leaf {
    /// An identifier by itself.
    pub(crate) fn new(alloc: Global, number: u32) -> Leaf
        ensures { result ≡ spec.leaf number }
    {
        Leaf {
            number,
            path: Items::new(alloc),
        }
    }

    /// Where the identifier is bound, if its pair is the value of this binder. The only error is want of memory.
    fn place(&self, alloc: Global, binder: u32) -> Result<Place, AllocError>
        ensures { IfOk result (λ place. place ≡ spec.place_of binder self.now) }
    {
        let path = Items::from_slice(alloc, self.path.as_slice())?;
        Ok(Place {
            number: self.number,
            binder,
            path,
        })
    }
}

impl Place {
    /// The value of the binder, or the part of it. The only error is want of memory.
    fn variable(&self, alloc: Global, ty: &SharedType) -> Result<Term, AllocError>
        ensures { IfOk result (λ t. t ≡ term.variable self.now.binder self.now.path ty.now) }
    {
        let path = Items::from_slice(alloc, self.path.as_slice())?;
        let ty = ty.again()?;
        Ok(Term {
            head: Head::Variable(self.binder, path, ty),
        })
    }
}

impl Around {
    /// No binder.
    pub(crate) fn new(alloc: Global) -> Around
        ensures { result ≡ spec.outermost }
    {
        Around {
            depth: 0,
            bound: Items::new(alloc),
        }
    }

    /// One more identifier of the value of a binder inside all that are there.
    fn push(&mut self, alloc: Global, leaf: &Leaf) -> Result<(), AllocError>
        ensures { OnOk result (self.new ≡ record { depth = self.old.depth; bound = self.old.bound ++ spec.place_of self.old.depth leaf.now ∷ [] }) }
    {
        let place = leaf.place(alloc, self.depth)?;
        self.bound.push(place)
    }

    /// One more binder, inside all that are there, whose value has these identifiers. The only error is want of memory, which
    /// also comes where there are 2^32 binders.
    pub(crate) fn enter(&mut self, alloc: Global, leaves: &[Leaf]) -> Result<(), AllocError>
        ensures { OnOk result (self.new ≡ spec.inside self.old leaves.now) }
    {
        for leaf in leaves {
            self.push(alloc, leaf)?;
        }
        self.depth = self.depth.checked_add(1).ok_or(AllocError)?;
        Ok(())
    }

    /// The identifiers but for the last one.
    fn pop(&mut self)
        ensures { self.new ≡ record { depth = self.old.depth; bound = take (length self.old.bound - 1) self.old.bound } }
    {
        self.bound.pop();
    }

    /// As many identifiers, from the outermost on, and as many binders.
    pub(crate) fn leave(&mut self, count: usize, depth: u32)
        ensures { self.new ≡ record { depth = depth; bound = take count self.old.bound } }
    {
        while self.bound.len() > count {
            self.pop();
        }
        self.depth = depth;
    }

    /// The innermost place of an identifier.
    fn place_of(&self, number: u32) -> Option<&Place>
        ensures { option_copied result ≡ spec.place_in self.now.bound number }
    {
        let mut rest = self.bound.len();
        while rest > 0 {
            rest -= 1;
            if let Some(place) = self.bound.get(rest) {
                if place.number == number {
                    return Some(place);
                }
            }
        }
        None
    }

    /// An identifier: a binder's value or a part of it, or what is declared. The only error is want of memory.
    pub(crate) fn identifier(
        &self,
        alloc: Global,
        setting: &Setting,
        number: u32,
    ) -> Result<Term, AllocError>
        ensures { IfOk result (λ t. t ≡ spec.identifier_term setting.now number self.now) }
    {
        match self.place_of(number) {
            Some(place) => {
                let ty = setting.type_at(alloc, number)?;
                place.variable(alloc, &ty)
            }
            None => setting.declared(alloc, number),
        }
    }
}
