//! The rows of pairs and of their parts.
ghost use Rattle.std.specs.Prelude.{◌≡◌, IfOk};
ghost use Rattle.rules_base.specs.Pairs as spec;

use eb_term::Side;
use occ_domains::{Body, Domain};
use std::alloc::{AllocError, Global};

/// The values of a side of `E |-> F`, where the whole and the other side have these.
pub(crate) fn down_pair(
    alloc: Global,
    side: Side,
    whole: &Body,
    part: &Body,
    other: &Body,
) -> Result<Body, AllocError>
    ensures { IfOk result (λ b. b ≡ spec.down_pair side whole.now part.now other.now) }
{
    if other.is_empty() {
        part.copied(alloc)
    } else {
        side_of(alloc, side, whole, part)
    }
}

fn side_of(alloc: Global, side: Side, whole: &Body, part: &Body) -> Result<Body, AllocError>
    ensures { IfOk result (λ b. b ≡ spec.side_of side whole.now part.now) }
{
    match (side, whole) {
        (Side::First, Body::Pairs(first, _)) => part.meet(alloc, first.get()),
        (Side::Second, Body::Pairs(_, second)) => part.meet(alloc, second.get()),
        _ => part.copied(alloc),
    }
}

/// What a part of a pair may be, where the pair has these values and may be Undefined or not.
pub(crate) fn up_part(
    alloc: Global,
    side: Side,
    values: &Body,
    undefined: bool,
) -> Result<Domain, AllocError>
    ensures { IfOk result (λ d. d ≡ spec.up_part side values.now undefined) }
{
    match (side, values) {
        (Side::First, Body::Pairs(first, _)) => of_part(alloc, first.get(), undefined),
        (Side::Second, Body::Pairs(_, second)) => of_part(alloc, second.get(), undefined),
        (_, Body::Empty) => Ok(Domain::Values(Body::Empty, undefined)),
        _ => Ok(Domain::Values(Body::Empty, true)),
    }
}

fn of_part(alloc: Global, part: &Body, undefined: bool) -> Result<Domain, AllocError>
    ensures { IfOk result (λ d. d ≡ spec.of_part part.now undefined) }
{
    let part = part.copied(alloc)?;
    Ok(Domain::Values(part, undefined))
}

/// The values of a pair, where a part of it has those of the whole.
pub(crate) fn down_part(
    alloc: Global,
    side: Side,
    whole: &Body,
    values: &Body,
) -> Result<Body, AllocError>
    ensures { IfOk result (λ b. b ≡ spec.down_part side whole.now values.now) }
{
    if whole.is_empty() {
        values.copied(alloc)
    } else {
        paired(alloc, side, whole, values)
    }
}

fn paired(alloc: Global, side: Side, whole: &Body, values: &Body) -> Result<Body, AllocError>
    ensures { IfOk result (λ b. b ≡ spec.paired side whole.now values.now) }
{
    match (side, values) {
        (Side::First, Body::Pairs(first, second)) => {
            let first = first.get().meet(alloc, whole)?;
            let second = second.get().copied(alloc)?;
            Body::pairs(alloc, first, second)
        }
        (Side::Second, Body::Pairs(first, second)) => {
            let first = first.get().copied(alloc)?;
            let second = second.get().meet(alloc, whole)?;
            Body::pairs(alloc, first, second)
        }
        _ => values.copied(alloc),
    }
}
