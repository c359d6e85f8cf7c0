//! The rows of arithmetic.
ghost use Rattle.std.specs.Prelude.{◌≡◌, IfOk};
ghost use Rattle.rules_base.specs.Integers as spec;

use eb_term::Side;
use occ_domains::{Body, Domain};
use rules_integers::{Arithmetic, down_arithmetic, up_arithmetic};
use std::alloc::{AllocError, Global};

/// What the operator may be, where the sides have these values, and either may be Undefined or neither.
pub(crate) fn up_integers(operator: Arithmetic, undefined: bool, a: &Body, b: &Body) -> Domain
    ensures { result ≡ spec.up_integers operator undefined a.now b.now }
{
    match (a, b) {
        (Body::Integers(c), Body::Integers(d)) => up_arithmetic(operator, !undefined, *c, *d),
        (Body::Empty, _) | (_, Body::Empty) => Domain::Values(Body::Empty, undefined),
        _ => Domain::Values(Body::Empty, true),
    }
}

/// The values of a side, where the whole and the other side have these.
pub(crate) fn down_integers(
    alloc: Global,
    operator: Arithmetic,
    side: Side,
    whole: &Body,
    part: &Body,
    other: &Body,
) -> Result<Body, AllocError>
    ensures { IfOk result (λ b. b ≡ spec.down_integers operator side whole.now part.now other.now) }
{
    match (whole, part, other) {
        (Body::Integers(e), Body::Integers(c), Body::Integers(d)) => {
            Ok(Body::common(*c, down_arithmetic(operator, side, *e, *c, *d)))
        }
        _ => part.copied(alloc),
    }
}
