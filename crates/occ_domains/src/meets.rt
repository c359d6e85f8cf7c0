ghost use Rattle.std.specs.Prelude.{◌≡◌, IfOk, OnOk, filter, ◌++◌, ◌∷◌, []};
ghost use Rattle.occ_domains.specs.Bodies as spec;
ghost use Rattle.eb_value.specs.Comprehensions as list;

use crate::body::Body;
use eb_value::{Value, Values, compare};
use std::alloc::{AllocError, Global};

/// What two bodies have in common. The only error is want of memory.
pub(crate) fn meet_bodies(alloc: Global, a: &Body, b: &Body) -> Result<Body, AllocError>
    ensures { IfOk result (λ body. body ≡ spec.meet a.now b.now) }
{
    match (a, b) {
        (Body::Integers(c), Body::Integers(d)) => Ok(Body::common(*c, *d)),
        (Body::Members(xs), Body::Members(ys)) => {
            let both = kept(alloc, xs.as_slice(), ys.as_slice())?;
            Ok(Body::members(both))
        }
        (Body::Pairs(c, d), Body::Pairs(e, f)) => {
            let first = meet_bodies(alloc, c.get(), e.get())?;
            let second = meet_bodies(alloc, d.get(), f.get())?;
            Body::pairs(alloc, first, second)
        }
        (Body::AllSets, Body::AllSets) => Ok(Body::AllSets),
        _ => Ok(Body::Empty),
    }
}

/// The values of a list that another has too.
fn kept(alloc: Global, values: &[Value], others: &[Value]) -> Result<Values, AllocError>
    ensures { IfOk result (λ kept. kept ≡ filter (list.has others.now) values.now) }
{
    let mut kept = Values::new(alloc);
    for value in values {
        if is_among(others, value) {
            kept.push(value.copied(alloc)?)?;
        }
    }
    Ok(kept)
}

/// Whether a list has the value.
pub(crate) fn is_among(values: &[Value], value: &Value) -> bool
    ensures { result ≡ list.has values.now value.now }
{
    for other in values {
        if compare(value, other).is_eq() {
            return true;
        }
    }
    false
}
