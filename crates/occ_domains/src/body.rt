ghost use Rattle.std.specs.Prelude.{◌≡◌, IfOk};
ghost use Rattle.occ_domains.specs.Bodies as spec;

use crate::meets::{is_among, meet_bodies};
use eb_value::{Form, Value, Values, values_copied};
use int_dom::Interval;
use sqlite_items::Boxed;
use std::alloc::{AllocError, Global};

/// Which values an expression may have.
#[derive(Drop)]
pub enum Body {
    /// None.
    Empty,
    Integers(Interval),
    /// FALSE and TRUE, or atoms, ascending.
    Members(Values),
    /// The pairs of a value of the first and a value of the second.
    Pairs(Boxed<Body>, Boxed<Body>),
    /// All sets.
    AllSets,
}

impl Body {
    /// The integers from one to another.
    pub fn integers(lo: i64, hi: i64) -> Body
        ensures { result ≡ spec.integers (record { lo = lo; hi = hi }) }
    {
        if hi < lo {
            Body::Empty
        } else {
            Body::Integers(Interval { lo, hi })
        }
    }

    /// The integers of both intervals.
    pub fn common(c: Interval, d: Interval) -> Body
        ensures { result ≡ spec.integers (spec.common c d) }
    {
        Body::integers(c.lo.max(d.lo), c.hi.min(d.hi))
    }

    /// The values of a list.
    pub fn members(values: Values) -> Body
        ensures { result ≡ spec.members values }
    {
        if values.as_slice().is_empty() {
            Body::Empty
        } else {
            Body::Members(values)
        }
    }

    /// The pairs of a value of the one and a value of the other. The only error is want of memory.
    pub fn pairs(alloc: Global, first: Body, second: Body) -> Result<Body, AllocError>
        ensures { IfOk result (λ b. b ≡ spec.pairs first second) }
    {
        if first.is_empty() || second.is_empty() {
            return Ok(Body::Empty);
        }
        let first = Boxed::new(alloc, first)?;
        let second = Boxed::new(alloc, second)?;
        Ok(Body::Pairs(first, second))
    }

    /// Whether it is the body without values.
    pub fn is_empty(&self) -> bool
        ensures { result ≡ spec.is_empty self.now }
    {
        matches!(self, Body::Empty)
    }

    /// Whether it has the value.
    pub fn has(&self, value: &Value) -> bool
        ensures { result ≡ spec.has self.now value.now }
    {
        match (self, &value.form) {
            (Body::Integers(d), Form::Int(n)) => d.lo <= *n && *n <= d.hi,
            (Body::Members(values), Form::Bool(_) | Form::Atom(_, _)) => {
                is_among(values.as_slice(), value)
            }
            (Body::Pairs(first, second), Form::Pair(a, b)) => {
                first.get().has(a.get()) && second.get().has(b.get())
            }
            (Body::AllSets, Form::Set(_)) => true,
            _ => false,
        }
    }

    /// An equal body. The only error is want of memory.
    pub fn copied(&self, alloc: Global) -> Result<Body, AllocError>
        ensures { IfOk result (λ copy. copy ≡ self.now) }
    {
        match self {
            Body::Empty => Ok(Body::Empty),
            Body::Integers(d) => Ok(Body::Integers(*d)),
            Body::Members(values) => {
                let values = values_copied(alloc, values.as_slice())?;
                Ok(Body::Members(values))
            }
            Body::Pairs(first, second) => {
                let first = Boxed::new(alloc, first.get().copied(alloc)?)?;
                let second = Boxed::new(alloc, second.get().copied(alloc)?)?;
                Ok(Body::Pairs(first, second))
            }
            Body::AllSets => Ok(Body::AllSets),
        }
    }

    /// What it has in common with another. The only error is want of memory.
    pub fn meet(&self, alloc: Global, other: &Body) -> Result<Body, AllocError>
        ensures { IfOk result (λ b. b ≡ spec.meet self.now other.now) }
    {
        meet_bodies(alloc, self, other)
    }

    /// The one value, where the body has just one. The only error is want of memory.
    pub fn single(&self, alloc: Global) -> Result<Option<Value>, AllocError>
        ensures { IfOk result (λ v. v ≡ spec.single self.now) }
    {
        match self {
            Body::Empty | Body::AllSets => Ok(None),
            Body::Integers(d) => Ok(single_integer(*d)),
            Body::Members(values) => single_member(alloc, values.as_slice()),
            Body::Pairs(first, second) => {
                let Some(a) = first.get().single(alloc)? else {
                    return Ok(None);
                };
                let Some(b) = second.get().single(alloc)? else {
                    return Ok(None);
                };
                let value = Value::pair(alloc, a, b)?;
                Ok(Some(value))
            }
        }
    }
}

fn single_integer(d: Interval) -> Option<Value>
    ensures { result ≡ spec.single_integer d }
{
    if d.is_single() {
        Some(Value::integer(d.lo))
    } else {
        None
    }
}

fn single_member(alloc: Global, values: &[Value]) -> Result<Option<Value>, AllocError>
    ensures { IfOk result (λ v. v ≡ spec.single_member values.now) }
{
    match values {
        [value] => {
            let value = value.copied(alloc)?;
            Ok(Some(value))
        }
        _ => Ok(None),
    }
}
