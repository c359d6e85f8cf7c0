ghost use Rattle.std.specs.Prelude.{◌≡◌, true, IfOk, Option};
ghost use Rattle.eb_value.specs.declared.value.Value.{Value as TheValue};
ghost use Rattle.occ_domains.specs.Bodies as bodies;
ghost use Rattle.occ_domains.specs.Domains as spec;

use crate::body::Body;
use crate::domain::Domain;
use eb_value::{Form, Value, Values, order_is_total};
use int_dom::Interval;
use sqlite_items::Boxed;
use std::alloc::{AllocError, Global};

/// The least domain with what an expression is: the value, or Undefined where there is none. Of a set that is all sets. In normal
/// form. The only error is want of memory.
pub fn only(alloc: Global, value: Option<Value>) -> Result<Domain, AllocError>
    ensures equals { IfOk result (λ d. d ≡ spec.only value) }
    ensures normal { IfOk result (λ d. spec.is_normal d ≡ true) }
    ensures has { IfOk result (λ d. spec.has d (spec.slot value) ≡ true) }
{
    order_is_total();
    just(alloc, value)
}

fn just(alloc: Global, value: Option<Value>) -> Result<Domain, AllocError>
    ensures { IfOk result (λ d. d ≡ spec.only value) }
{
    match value {
        Some(value) => {
            let body = exactly(alloc, &value)?;
            Ok(Domain::Values(body, false))
        }
        None => Ok(Domain::Values(Body::Empty, true)),
    }
}

/// The least body with a value.
fn exactly(alloc: Global, value: &Value) -> Result<Body, AllocError>
    ensures { IfOk result (λ b. b ≡ bodies.exactly value.now) }
{
    match &value.form {
        Form::Int(n) => Ok(Body::Integers(Interval { lo: *n, hi: *n })),
        Form::Bool(_) | Form::Atom(_, _) => {
            let mut values = Values::new(alloc);
            values.push(value.copied(alloc)?)?;
            Ok(Body::Members(values))
        }
        Form::Pair(a, b) => {
            let first = exactly(alloc, a.get())?;
            let second = exactly(alloc, b.get())?;
            let first = Boxed::new(alloc, first)?;
            let second = Boxed::new(alloc, second)?;
            Ok(Body::Pairs(first, second))
        }
        Form::Set(_) => Ok(Body::AllSets),
    }
}
