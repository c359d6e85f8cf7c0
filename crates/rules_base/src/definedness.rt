//! The rows of `Defined` and of predicates as values.
ghost use Rattle.std.specs.Prelude.{◌≡◌, ◌++◌, true, false, IfOk};
ghost use Rattle.eb_value.specs.Values as value;
ghost use Rattle.rules_base.specs.Definedness as spec;

use eb_value::{Value, Values};
use occ_domains::{Body, Domain, Truths};
use std::alloc::{AllocError, Global};

/// The truths that `Defined(E)` may have where E may have these values, and be Undefined or not.
pub(crate) fn up_defined(values: &Body, undefined: bool) -> Truths
    ensures { result ≡ spec.up_defined values.now undefined }
{
    Truths {
        can_be_true: !values.is_empty(),
        can_be_false: undefined,
        can_be_undefined: false,
    }
}

pub(crate) fn is_true_alone(truths: Truths) -> bool
    ensures { result ≡ spec.is_true_alone truths }
{
    truths.can_be_true && !truths.can_be_false && !truths.can_be_undefined
}

pub(crate) fn is_false_alone(truths: Truths) -> bool
    ensures { result ≡ spec.is_false_alone truths }
{
    truths.can_be_false && !truths.can_be_true && !truths.can_be_undefined
}

/// What E may be where `Defined(E)` may have these truths, and E these values and be Undefined or not. The only error is want of
/// memory.
pub(crate) fn down_defined(
    alloc: Global,
    whole: Truths,
    values: &Body,
    undefined: bool,
) -> Result<Domain, AllocError>
    ensures { IfOk result (λ d. d ≡ spec.down_defined whole values.now undefined) }
{
    let undefined = undefined && !is_true_alone(whole);
    if is_false_alone(whole) {
        Ok(Domain::Values(Body::Empty, undefined))
    } else {
        let values = values.copied(alloc)?;
        Ok(Domain::Values(values, undefined))
    }
}

/// The values of the truths, FALSE first.
fn truth_values(alloc: Global, truths: Truths) -> Result<Values, AllocError>
    ensures { IfOk result (λ vs. vs ≡ spec.where_so truths.can_be_false (value.truth false) ++ spec.where_so truths.can_be_true (value.truth true)) }
{
    let mut values = Values::new(alloc);
    if truths.can_be_false {
        values.push(Value::truth(false))?;
    }
    if truths.can_be_true {
        values.push(Value::truth(true))?;
    }
    Ok(values)
}

/// What a predicate may be as a value of BOOL, where it may have these truths. The only error is want of memory.
pub(crate) fn up_as_value(alloc: Global, truths: Truths) -> Result<Domain, AllocError>
    ensures { IfOk result (λ d. d ≡ spec.up_as_value truths) }
{
    let values = truth_values(alloc, truths)?;
    Ok(Domain::Values(Body::members(values), truths.can_be_undefined))
}

/// The truths that a predicate may have where it may have these, and as a value of BOOL may be one of these or Undefined. Where it
/// may be Undefined as a value, nothing is known of the predicate; where it has no value, only that it isn't Undefined.
pub(crate) fn down_as_value(values: &Body, undefined: bool, truths: Truths) -> Truths
    ensures { result ≡ spec.down_as_value values.now undefined truths }
{
    if undefined {
        return truths;
    }
    Truths {
        can_be_true: truths.can_be_true && (values.is_empty() || values.has(&Value::truth(true))),
        can_be_false: truths.can_be_false
            && (values.is_empty() || values.has(&Value::truth(false))),
        can_be_undefined: false,
    }
}
