//! What stands at the ends of terms.
ghost use Rattle.std.specs.Prelude.{◌≡◌, IfSome};
ghost use Rattle.std.specs.Option.{option_copied};
ghost use Rattle.eb_value.specs.Canonical.{IsCanonical};
ghost use Rattle.eb_meaning.specs.Meaning as spec;
ghost use Rattle.eb_meaning.specs.steps.Evaluating as step;

use crate::setting::{Found, Setting};
use eb_operations::part_at;
use eb_term::{Head, Side, Term};
use eb_value::Value;

/// The value of a literal, a reference or a variable, where it stands.
pub(crate) fn leaf_at<'a>(at: &'a Setting<'_, '_>, term: &'a Term) -> Option<Found<'a>>
    ensures { result ≡ step.leaf_value at.now term.now }
{
    match &term.head {
        Head::Literal(value, _) => Some(Found::lent(value.get())),
        Head::Reference(place, _) => lent(at.slot(*place)),
        Head::Variable(binder, path, _) => lent(variable_at(at, *binder, path.as_slice())),
        _ => None,
    }
}

fn lent<'a>(value: Option<&'a Value>) -> Option<Found<'a>>
    requires { IfSome value (λ v. IsCanonical v.now) }
    ensures { result ≡ option_copied value.entry }
{
    match value {
        Some(value) => Some(Found::lent(value)),
        None => None,
    }
}

/// The value of an enclosing binder, or a part of it.
fn variable_at<'a>(at: &'a Setting<'_, '_>, binder: u32, path: &[Side]) -> Option<&'a Value>
    ensures value { option_copied result ≡ spec.variable_at at.now binder path.now }
    ensures canonical { IfSome result (λ v. IsCanonical v.now) }
{
    match at.bound().get(binder as usize) {
        Some(value) => part_at(path, value),
        None => None,
    }
}
