ghost use Rattle.std.specs.Prelude.{◌≡◌};
ghost use Rattle.eb_value.specs.Values as spec;

use crate::value::{Form, Value};
use std::cmp::Ordering;

/// Where the kind of a value stands among the kinds.
fn rank(v: &Value) -> u8
    ensures { result ≡ spec.rank v.now }
{
    match &v.form {
        Form::Int(_) => 0,
        Form::Bool(_) => 1,
        Form::Atom(_, _) => 2,
        Form::Pair(_, _) => 3,
        Form::Set(_) => 4,
    }
}

/// The one order of values: integers by number, FALSE before TRUE, atoms by carrier set and
/// number, pairs by first and then by second, sets member by member with a proper prefix
/// first; of two kinds, in that order.
#[cycle(ordering)]
pub fn compare(a: &Value, b: &Value) -> Ordering
    ensures { result ≡ spec.compare a.now b.now }
{
    match (&a.form, &b.form) {
        (Form::Int(x), Form::Int(y)) => x.cmp(y),
        (Form::Bool(x), Form::Bool(y)) => x.cmp(y),
        (Form::Atom(s, x), Form::Atom(t, y)) => s.cmp(t).then(x.cmp(y)),
        (Form::Pair(x, y), Form::Pair(z, w)) => {
            compare(x.get(), z.get()).then(compare(y.get(), w.get()))
        }
        (Form::Set(xs), Form::Set(ys)) => compare_all(xs.as_slice(), ys.as_slice()),
        _ => rank(a).cmp(&rank(b)),
    }
}

#[cycle(ordering)]
fn compare_all(xs: &[Value], ys: &[Value]) -> Ordering
    ensures { result ≡ spec.compare_all xs.now ys.now }
{
    for (i, x) in xs.iter().enumerate() {
        let Some(y) = ys.get(i) else {
            return Ordering::Greater;
        };
        let order = compare(x, y);
        if order != Ordering::Equal {
            return order;
        }
    }
    if xs.len() < ys.len() {
        Ordering::Less
    } else {
        Ordering::Equal
    }
}

/// Whether each value stands below the next.
pub fn is_ascending(values: &[Value]) -> bool
    ensures { result ≡ spec.is_ascending values.now }
{
    let mut rest = values;
    while let [first, after @ ..] = rest {
        if let [second, ..] = after {
            if compare(first, second) != Ordering::Less {
                return false;
            }
        }
        rest = after;
    }
    true
}
