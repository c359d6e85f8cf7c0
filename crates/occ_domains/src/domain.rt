ghost use Rattle.std.specs.Prelude.{◌≡◌, ◌&&◌, ◌↔◌, true, false, Some, IfOk, IsTrue};
ghost use Rattle.eb_value.specs.declared.value.Value.{Value};
ghost use Rattle.occ_domains.specs.Domains as spec;

use crate::body::Body;
use crate::meets::meet_bodies;
use eb_value::{Value, order_is_total};
use std::alloc::{AllocError, Global};

/// Which truths a predicate may have.
#[derive(Clone, Copy, Debug, PartialEq, Eq)]
pub struct Truths {
    pub can_be_true: bool,
    pub can_be_false: bool,
    pub can_be_undefined: bool,
}

impl Truths {
    /// The truths of both.
    fn meet(self, other: Truths) -> Truths
        ensures { result ≡ spec.common_truths self other }
    {
        Truths {
            can_be_true: self.can_be_true && other.can_be_true,
            can_be_false: self.can_be_false && other.can_be_false,
            can_be_undefined: self.can_be_undefined && other.can_be_undefined,
        }
    }
}

/// What a formula may be.
#[derive(Drop)]
pub enum Domain {
    /// The truths of a predicate.
    Truths(Truths),
    /// The values of an expression, and whether it may be Undefined besides.
    Values(Body, bool),
}

impl Domain {
    /// An equal domain. The only error is want of memory.
    pub fn copied(&self, alloc: Global) -> Result<Domain, AllocError>
        ensures { IfOk result (λ copy. copy ≡ self.now) }
    {
        match self {
            Domain::Truths(truths) => Ok(Domain::Truths(*truths)),
            Domain::Values(body, undefined) => {
                let body = body.copied(alloc)?;
                Ok(Domain::Values(body, *undefined))
            }
        }
    }
}

/// Whether the domain has no truth; or no value, and isn't Undefined. A domain in normal form has nothing exactly then.
pub fn is_empty(d: &Domain) -> bool
    ensures equals { result ≡ spec.is_empty d.now }
    ensures none { spec.is_normal d.now ≡ true → IsTrue result ↔ ((o : spec.Outcome) → spec.has d.now o ≡ false) }
{
    order_is_total();
    has_nothing(d)
}

pub(crate) fn has_nothing(d: &Domain) -> bool
    ensures { result ≡ spec.is_empty d.now }
{
    match d {
        Domain::Truths(t) => !(t.can_be_true || t.can_be_false || t.can_be_undefined),
        Domain::Values(body, undefined) => !*undefined && body.is_empty(),
    }
}

/// What two domains have in common: the truths of both; the values of both, and Undefined where both may be.
/// In normal form where the first is. The only error is want of memory.
pub fn meet(alloc: Global, a: &Domain, b: &Domain) -> Result<Domain, AllocError>
    ensures equals { IfOk result (λ d. d ≡ spec.meet a.now b.now) }
    ensures normal { spec.is_normal a.now ≡ true → IfOk result (λ d. spec.is_normal d ≡ true) }
    ensures has { IfOk result (λ d. (o : spec.Outcome) → spec.has d o ≡ (spec.has a.now o && spec.has b.now o)) }
{
    order_is_total();
    common(alloc, a, b)
}

fn common(alloc: Global, a: &Domain, b: &Domain) -> Result<Domain, AllocError>
    ensures { IfOk result (λ d. d ≡ spec.meet a.now b.now) }
{
    match (a, b) {
        (Domain::Truths(s), Domain::Truths(t)) => Ok(Domain::Truths(s.meet(*t))),
        (Domain::Values(c, u), Domain::Values(d, w)) => {
            let body = meet_bodies(alloc, c, d)?;
            Ok(Domain::Values(body, *u && *w))
        }
        _ => Ok(Domain::Values(Body::Empty, false)),
    }
}

/// The one value, where the domain is of an expression that has just one and isn't Undefined; None exactly otherwise, for a
/// domain in normal form. The only error is want of memory.
pub fn single(alloc: Global, d: &Domain) -> Result<Option<Value>, AllocError>
    ensures equals { IfOk result (λ s. s ≡ spec.single d.now) }
    ensures one { spec.is_normal d.now ≡ true → IfOk result (λ s. (v : Value)
        → (s ≡ Some v) ↔ ((o : spec.Outcome) → (spec.has d.now o ≡ true) ↔ (o ≡ spec.slot (Some v)))) }
{
    order_is_total();
    only_value(alloc, d)
}

fn only_value(alloc: Global, d: &Domain) -> Result<Option<Value>, AllocError>
    ensures { IfOk result (λ s. s ≡ spec.single d.now) }
{
    match d {
        Domain::Values(body, false) => body.single(alloc),
        _ => Ok(None),
    }
}
