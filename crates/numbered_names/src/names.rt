//! The names in scope and their numbers.
ghost use Rattle.std.specs.Prelude.{◌≡◌, ◌+◌, IfOk, OnOk, length};
ghost use Rattle.numbered_names.specs.Names as spec;

use crate::entries::{Entries, Entry};
use eb_names::Name;
use eb_syntax::{Bound, Identifier, Mark};
use sqlite_items::Items;
use std::alloc::{AllocError, Global};
use std::marker::Model;

/// The names in scope, the innermost last.
#[derive(Drop)]
pub struct Names {
    bound: Entries,
    /// What the E of a `{E|P}` has bound so far, inside such an E.
    built: Option<Entries>,
    /// The first number that is free.
    next: u32,
}

impl Model for Names {
    ghost use Rattle.numbered_names.specs.Names.{Names};

    ghost Value = { Names };

    ghost view = { λ n. record { bound = n.bound; built = n.built; next = n.next } };
}

fn after(number: u32) -> Result<u32, AllocError>
    ensures { IfOk result (λ n. n ≡ number + 1) }
{
    number.checked_add(1).ok_or(AllocError)
}

impl Names {
    /// Nothing is in scope.
    pub fn new(alloc: Global) -> Names
        ensures { result ≡ spec.no_names }
    {
        Names {
            bound: Entries::new(alloc),
            built: None,
            next: 0,
        }
    }

    /// The names at the begin of the E of `{E|P}`.
    pub fn entered(&self, alloc: Global) -> Names
        ensures { result ≡ spec.enter self.now.next }
    {
        Names {
            bound: Entries::new(alloc),
            built: Some(Entries::new(alloc)),
            next: self.next,
        }
    }

    pub fn next(&self) -> u32
        ensures { result ≡ self.now.next }
    {
        self.next
    }

    /// How many names are bound.
    pub fn depth(&self) -> usize
        ensures { result ≡ length self.now.bound }
    {
        self.bound.len()
    }

    /// One more number.
    pub fn mark(&mut self) -> Result<u32, AllocError>
        ensures number { IfOk result (λ n. n ≡ self.old.next) }
        ensures names { OnOk result (self.new ≡ spec.after_mark self.old) }
    {
        let number = self.next;
        self.next = after(number)?;
        Ok(number)
    }

    /// One more name, with the next number.
    pub fn bind(&mut self, alloc: Global, identifier: &Identifier) -> Result<(), AllocError>
        ensures { OnOk result (self.new ≡ spec.bind self.old identifier.now) }
    {
        self.bound.push(alloc, &identifier.name, self.next)?;
        self.next = after(self.next)?;
        Ok(())
    }

    pub fn bind_all(&mut self, alloc: Global, identifiers: &[Identifier]) -> Result<(), AllocError>
        ensures { OnOk result (self.new ≡ spec.bind_all self.old identifiers.now) }
    {
        for identifier in identifiers {
            self.bind(alloc, identifier)?;
        }
        Ok(())
    }

    fn bind_token(&mut self, alloc: Global, token: &Mark) -> Result<(), AllocError>
        ensures { OnOk result (self.new ≡ spec.bind_token self.old token.now) }
    {
        match token {
            Mark::Identifier(identifier) => self.bind(alloc, identifier),
            Mark::MapsTo | Mark::Open | Mark::Close => Ok(()),
        }
    }

    fn bind_pattern(&mut self, alloc: Global, tokens: &[Mark]) -> Result<(), AllocError>
        ensures { OnOk result (self.new ≡ spec.bind_pattern self.old tokens.now) }
    {
        for token in tokens {
            self.bind_token(alloc, token)?;
        }
        Ok(())
    }

    /// What a binder binds.
    pub fn bind_bound(&mut self, alloc: Global, bound: &Bound) -> Result<(), AllocError>
        ensures { OnOk result (self.new ≡ spec.bind_bound self.old bound.now) }
    {
        match bound {
            Bound::Identifiers(identifiers) => self.bind_all(alloc, identifiers.as_slice()),
            Bound::Pattern(tokens) => self.bind_pattern(alloc, tokens.as_slice()),
        }
    }

    /// Keeps the first names that are bound.
    pub fn unbind(&mut self, depth: usize)
        ensures { self.new ≡ spec.unbind depth self.old }
    {
        self.bound.truncate(depth);
    }

    /// Binds what the E of a `{E|P}` has bound.
    pub fn leave(&mut self, alloc: Global, inner: Names) -> Result<(), AllocError>
        ensures { OnOk result (self.new ≡ spec.leave self.old inner) }
    {
        let Names { built, next, .. } = inner;
        self.next = next;
        match built {
            Some(built) => self.bound.append(alloc, built.layers()),
            None => Ok(()),
        }
    }

    /// What the E of a `{E|P}` has bound so far: nothing outside of one. The only error is want of memory.
    pub fn built(&self, alloc: Global) -> Result<Items<Entry>, AllocError>
        ensures { IfOk result (λ entries. entries ≡ spec.entries self.now.built) }
    {
        match &self.built {
            Some(built) => built.entries(alloc),
            None => Ok(Items::new(alloc)),
        }
    }

    /// The number of a name that is built, if that is so here.
    fn built_as(&mut self, alloc: Global, name: &Name) -> Result<Option<u32>, AllocError>
        ensures number { IfOk result (λ k. k ≡ spec.built_number name.now self.old) }
        ensures names { OnOk result (self.new ≡ spec.after_built name.now self.old) }
    {
        let number = self.next;
        let Some(built) = &mut self.built else {
            return Ok(None);
        };
        if let Some(found) = built.newest(name) {
            return Ok(Some(found));
        }
        built.push(alloc, name, number)?;
        self.next = after(number)?;
        Ok(Some(number))
    }

    /// The number of a name that is bound or built, if it is so.
    pub fn used_as(&mut self, alloc: Global, name: &Name) -> Result<Option<u32>, AllocError>
        ensures number { IfOk result (λ k. k ≡ spec.inner_number name.now self.old) }
        ensures names { OnOk result (self.new ≡ spec.after_use name.now self.old) }
    {
        if let Some(found) = self.bound.newest(name) {
            return Ok(Some(found));
        }
        self.built_as(alloc, name)
    }
}
