ghost use Rattle.std.specs.Prelude.{◌≡◌, [], ◌<◌, ◌^◌, true, false, slice_get, set, length, IfOk, MatchOption};
ghost use Rattle.std.specs.List.{list_all};
ghost use Rattle.eb_value.specs.Canonical.{AreCanonical};
ghost use Rattle.int_dom.specs.Intervals as interval;
ghost use Rattle.occ_store.specs.Places.{has_at};
ghost use Rattle.occ_store.specs.Stores as spec;
ghost use Rattle.occ_store.specs.steps.Parts.{both};

use eb_term::Choice;
use eb_value::{Scope, Value, Values, integers_lie_within_bounds};
use int_dom::Interval;
use std::alloc::{AllocError, Global};
use std::marker::Model;

/// The integers of the scope for each choice.
fn wholes(alloc: Global, choices: &[Choice], scope: &Scope) -> Result<Vec<Interval>, AllocError>
    ensures { IfOk result (λ store. store.items ≡ spec.first_store scope.now choices.now) }
{
    let whole = Interval {
        lo: scope.lo,
        hi: scope.hi,
    };
    let mut domains = Vec::new(alloc);
    for _choice in choices {
        domains.push(whole)?;
    }
    Ok(domains)
}

/// What is at most a number, and what is above it, where neither is empty.
fn both_parts(domain: Interval, n: i64) -> Option<(Interval, Interval)>
    ensures { result ≡ both (interval.filled (interval.at_most n domain)) (interval.filled (interval.above n domain)) }
{
    let (low, high) = domain.le(n);
    Some((low?, high?))
}

/// A domain for each choice of a problem, in the order of the choices. Contracts see the list of
/// the domains.
#[derive(Drop)]
pub struct Store {
    domains: Vec<Interval>,
}

impl Model for Store {
    ghost use Rattle.std.specs.Prelude.{List};
    ghost use Rattle.int_dom.specs.declared.interval.Interval.{Interval};

    ghost Value = { List Interval };

    ghost view = { λ s. s.domains.items };
}

impl Store {
    /// The store of no choice.
    pub(crate) fn none(alloc: Global) -> Store
        ensures { result ≡ [] }
    {
        Store {
            domains: Vec::new(alloc),
        }
    }

    /// The store in which each choice has the whole of its type in the scope. The only error is
    /// want of memory.
    pub fn first(alloc: Global, choices: &[Choice], scope: &Scope) -> Result<Store, AllocError>
        requires integers { spec.HaveIntegers choices.now }
        ensures { IfOk result (spec.IsFirst scope.now choices.now) }
    {
        integers_lie_within_bounds();
        let domains = wholes(alloc, choices, scope)?;
        Ok(Store { domains })
    }

    /// An equal store. The only error is want of memory.
    pub fn copied(&self, alloc: Global) -> Result<Store, AllocError>
        ensures { IfOk result (λ copy. copy ≡ self.now) }
    {
        let domains = Vec::from_slice(alloc, self.domains.as_slice())?;
        Ok(Store { domains })
    }

    /// The choice's domain, and None exactly where there is no such choice.
    pub fn domain(&self, choice: u32) -> Option<Interval>
        ensures { result ≡ slice_get self.now choice }
    {
        self.domains.as_slice().get(choice as usize).copied()
    }

    /// Gives the choice another domain. Where there is no such choice, nothing changes.
    pub fn put(&mut self, choice: u32, domain: Interval)
        ensures { self.new ≡ set self.old choice domain }
    {
        if let Some(place) = self.domains.get_mut(choice as usize) {
            *place = domain;
        }
    }

    /// Whether there is this choice, and its domain has no value.
    pub fn is_empty_at(&self, choice: u32) -> bool
        ensures { result ≡ has_at interval.is_empty choice self.now }
    {
        match self.domain(choice) {
            Some(domain) => domain.is_empty(),
            None => false,
        }
    }

    /// What is at most a number in the choice's domain, and what is above it there. None exactly
    /// where there is no such choice, or a part has no value.
    pub fn parts(&self, choice: u32, n: i64) -> Option<(Interval, Interval)>
        ensures { MatchOption result (has_at (interval.has_parts n) choice self.now ≡ false) (spec.AreParts self.now choice n) }
    {
        match self.domain(choice) {
            Some(domain) => both_parts(domain, n),
            None => None,
        }
    }

    /// Whether each domain has one value.
    pub fn is_single(&self) -> bool
        ensures { result ≡ list_all interval.is_single self.now }
    {
        self.domains
            .as_slice()
            .iter()
            .all(|domain| domain.is_single())
    }

    /// The first choice whose domain hasn't one value, with the domain, and None exactly where each
    /// has one.
    pub fn loose(&self) -> Option<(u32, Interval)>
        requires few { length self.now < 2 ^ 32 }
        ensures { MatchOption result (list_all interval.is_single self.now ≡ true) (spec.IsLoose self.now) }
    {
        for (choice, domain) in self.domains.as_slice().iter().enumerate() {
            if !domain.is_single() {
                return Some((choice as u32, *domain));
            }
        }
        None
    }

    /// The lower ends of the domains. Where each domain has one value, these are the values. The
    /// only error is want of memory.
    pub fn values(&self, alloc: Global) -> Result<Values, AllocError>
        ensures values { IfOk result (λ values. values ≡ spec.single_values self.now) }
        ensures canonical { IfOk result AreCanonical }
    {
        let mut values = Values::new(alloc);
        for domain in self.domains.as_slice() {
            values.push(Value::integer(domain.lo))?;
        }
        Ok(values)
    }
}
