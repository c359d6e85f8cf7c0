ghost use Rattle.std.specs.Prelude.{◌≡◌, ◌⊎◌, ◌↔◌, true, IfSome, IsNone};
ghost use Rattle.std.specs.Option.{option_copied};
ghost use Rattle.eb_value.specs.steps.Joins as step;
ghost use Rattle.eb_value.specs.Relations as spec;
ghost use Rattle.eb_value.specs.Comprehensions as set;
ghost use Rattle.eb_value.specs.Values.{is_ascending};

use crate::lists::Values;
use crate::merges::{same_first, second_of};
use crate::products::images;
use crate::value::Value;

/// f(x): the second of the pair of f with the first x. None exactly where two pairs of f have
/// one first and different seconds, or none has the first x.
pub fn apply<'a>(f: &'a Values, x: &Value) -> Option<&'a Value>
    requires { is_ascending f.now ≡ true }
    ensures none { IsNone result
        ↔ (spec.IsAmbiguous f.now ⊎ ¬ spec.InDomain f.now x.now) }
    ensures some { IfSome result (λ y. spec.Relates f.now x.now y.now) }
    ensures equals { option_copied result ≡ set.apply f.now x.now }
{
    applied(f.as_slice(), x)
}

fn applied<'a>(f: &'a [Value], x: &Value) -> Option<&'a Value>
    requires { is_ascending f.now ≡ true }
    ensures { option_copied result ≡ step.applied f.now x.now }
{
    if !has_distinct_firsts(f) {
        return None;
    }
    let value = images(f, x).first()?;
    second_of(value)
}

/// Whether an ascending relation has no two pairs with one first. A member that is no pair counts for
/// nothing.
pub fn is_functional(r: &[Value]) -> bool
    requires { is_ascending r.now ≡ true }
    ensures { result ≡ set.is_functional r.now }
{
    has_distinct_firsts(r)
}

fn has_distinct_firsts(f: &[Value]) -> bool
    ensures { result ≡ step.is_functional f.now }
{
    let mut rest = f;
    while let [first, others @ ..] = rest {
        if let [second, ..] = others {
            if same_first(first, second) {
                return false;
            }
        }
        rest = others;
    }
    true
}
