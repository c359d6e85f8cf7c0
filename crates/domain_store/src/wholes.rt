//! The domains of all that may come of terms, one for each type.
ghost use Rattle.std.specs.Prelude.{◌≡◌, [], Some, IfOk, IfSome, IsTrue, ◌↔◌, option_map, option_copied, slice_get};
ghost use Rattle.occurrences.specs.Stores as stores;
ghost use Rattle.domain_store.specs.steps.Firsts as spec;

use eb_value::{EbType, Scope, same_type};
use occ_domains::{Domain, Truths, whole};
use std::alloc::{AllocError, Global};
use std::marker::Model;

/// The domains of all that may come of terms of some types, by number: all truths of predicates, which have no type.
#[derive(Drop)]
pub(crate) struct Wholes<'p> {
    scope: &'p Scope,
    types: Vec<Option<EbType>>,
    domains: Vec<Domain>,
}

impl<'p> Model for Wholes<'p> {
    ghost use Rattle.std.specs.Prelude.{◌≡◌, map};
    ghost use Rattle.std.specs.Coded.{codes};
    ghost use Rattle.eb_value.specs.contracts.scope.Scope as s;
    ghost use Rattle.eb_value.specs.contracts.types.EbType as t;
    ghost use Rattle.occurrences.specs.Stores.{whole_by};
    ghost use Rattle.domain_store.specs.steps.Firsts.{Types};

    ghost Value = { Types };

    ghost coded = { Prim.hlevel (codes, s.the_row.coded, t.the_row.coded) };

    ghost view = { λ w. record { scope = w.scope.now; types = w.types.items } };

    ghost invariant = { λ w. w.domains.items ≡ map (whole_by w.scope.now) w.types.items };
}

fn all_truths() -> Domain
    ensures { result ≡ stores.all_truths }
{
    Domain::Truths(Truths {
        can_be_true: true,
        can_be_false: true,
        can_be_undefined: true,
    })
}

fn same_types(a: &Option<EbType>, b: &Option<EbType>) -> bool
    ensures { IsTrue result ↔ (a.now ≡ b.now) }
{
    match (a, b) {
        (None, None) => true,
        (Some(a), Some(b)) => same_type(a, b),
        _ => false,
    }
}

/// The domain of all that may come of terms of this type.
fn whole_domain(alloc: Global, ty: &Option<EbType>, scope: &Scope) -> Result<Domain, AllocError>
    ensures { IfOk result (λ d. d ≡ stores.whole_by scope.now ty.now) }
{
    match ty {
        None => Ok(all_truths()),
        Some(ty) => {
            let body = whole(alloc, ty, scope)?;
            Ok(Domain::Values(body, true))
        }
    }
}

impl<'p> Wholes<'p> {
    pub(crate) fn new(alloc: Global, scope: &'p Scope) -> Wholes<'p>
        ensures { result ≡ record { scope = scope.now; types = [] } }
    {
        Wholes {
            scope,
            types: Vec::new(alloc),
            domains: Vec::new(alloc),
        }
    }

    /// The number of the type, if it has one.
    fn find(&self, ty: &Option<EbType>) -> Option<u64>
        ensures { IfSome result (λ k. slice_get self.now.types k ≡ Some ty.now) }
    {
        for (k, other) in self.types.iter().enumerate() {
            if same_types(other, ty) {
                return Some(k as u64);
            }
        }
        None
    }

    /// Gives the type the next number. The only error is want of memory.
    fn add(&mut self, alloc: Global, ty: Option<EbType>) -> Result<u64, AllocError>
        ensures number { IfOk result (λ k. slice_get self.new.types k ≡ Some ty) }
        ensures keeps { spec.Extends self.old self.new }
    {
        let number = self.types.len() as u64;
        let domain = whole_domain(alloc, &ty, self.scope)?;
        self.domains.push(domain)?;
        if self.types.push(ty).is_err() {
            self.domains.pop();
            return Err(AllocError);
        }
        Ok(number)
    }

    /// The number of the type, which gets one where it has none. The only error is want of memory.
    pub(crate) fn number(&mut self, alloc: Global, ty: Option<EbType>) -> Result<u64, AllocError>
        ensures number { IfOk result (λ k. slice_get self.new.types k ≡ Some ty) }
        ensures keeps { spec.Extends self.old self.new }
    {
        match self.find(&ty) {
            Some(number) => Ok(number),
            None => self.add(alloc, ty),
        }
    }

    /// The domain of all that may come of terms of the type with this number.
    pub(crate) fn get(&self, number: u64) -> Option<&Domain>
        ensures { option_copied result ≡ option_map (stores.whole_by self.now.scope) (slice_get self.now.types number) }
    {
        self.domains.get(number as usize)
    }
}
