ghost use Rattle.std.specs.Prelude.{◌≡◌, ◌&&◌, ◌↔◌, ◌⊎◌, not, filter, true, false, IfOk, IsNone, IfSome};
ghost use Rattle.occ_domains.specs.Domains.{Outcome, has, is_normal};
ghost use Rattle.occ_domains.specs.Tests as spec;

use crate::body::Body;
use crate::domain::{Domain, Truths, has_nothing};
use eb_term::{Path, Side};
use eb_value::{Value, Values, compare, order_is_total};
use int_dom::Interval;
use std::alloc::{AllocError, Global};

/// What may be asked of a formula's outcome. A path leads into pairs, from the outermost on.
#[derive(Drop)]
pub enum Test {
    /// The integer at the path is at most a number.
    AtMost(Path, i64),
    /// The truth or atom at the path is this value.
    Is(Path, Value),
    /// The expression is defined.
    Defined,
    /// The predicate is true.
    True,
    /// The predicate is false.
    False,
    /// The predicate is Undefined.
    Undefined,
}

/// The two parts of a domain by a test: the outcomes that pass, and the others. None exactly where the test doesn't fit the
/// domain (a test of truths on values, of values on truths; a path where there is no pair; `AtMost` where there are no
/// integers, `Is` where there is no list), or a part is empty. Both are in normal form where the domain is. The only error is
/// want of memory.
pub fn parts(alloc: Global, d: &Domain, test: &Test) -> Result<Option<(Domain, Domain)>, AllocError>
    ensures equals { IfOk result (λ p. p ≡ spec.parts d.now test.now) }
    ensures first { IfOk result (λ p. IfSome p (λ two. (o : Outcome)
        → has two.0 o ≡ (has d.now o && spec.passes test.now o))) }
    ensures second { IfOk result (λ p. IfSome p (λ two. (o : Outcome)
        → has two.1 o ≡ (has d.now o && not (spec.passes test.now o)))) }
    ensures normal { is_normal d.now ≡ true
        → IfOk result (λ p. IfSome p (λ two. (is_normal two.0 ≡ true) × (is_normal two.1 ≡ true))) }
    ensures none { is_normal d.now ≡ true
        → IfOk result (λ p. IsNone p ↔ ((spec.fits d.now test.now ≡ false) ⊎ spec.AreAlike d.now test.now)) }
{
    order_is_total();
    split(alloc, d, test)
}

fn split(alloc: Global, d: &Domain, test: &Test) -> Result<Option<(Domain, Domain)>, AllocError>
    ensures { IfOk result (λ p. p ≡ spec.parts d.now test.now) }
{
    if !fits(d, test) {
        return Ok(None);
    }
    let first = part(alloc, d, test, true)?;
    let second = part(alloc, d, test, false)?;
    Ok(both(first, second))
}

fn both(first: Domain, second: Domain) -> Option<(Domain, Domain)>
    ensures { result ≡ spec.two first second }
{
    if has_nothing(&first) || has_nothing(&second) {
        None
    } else {
        Some((first, second))
    }
}

fn fits(d: &Domain, test: &Test) -> bool
    ensures { result ≡ spec.fits d.now test.now }
{
    match (d, test) {
        (Domain::Values(body, _), Test::AtMost(path, _) | Test::Is(path, _)) => {
            fits_at(body, path.as_slice(), test)
        }
        (Domain::Values(_, _), Test::Defined) => true,
        (Domain::Truths(_), Test::True | Test::False | Test::Undefined) => true,
        _ => false,
    }
}

fn fits_at(body: &Body, path: &[Side], test: &Test) -> bool
    ensures { result ≡ spec.fits_at (spec.fits_leaf test.now) path.now body.now }
{
    match path {
        [] => fits_leaf(body, test),
        [side, rest @ ..] => match (body, side) {
            (Body::Pairs(first, _), Side::First) => fits_at(first.get(), rest, test),
            (Body::Pairs(_, second), Side::Second) => fits_at(second.get(), rest, test),
            _ => false,
        },
    }
}

fn fits_leaf(body: &Body, test: &Test) -> bool
    ensures { result ≡ spec.fits_leaf test.now body.now }
{
    matches!(
        (test, body),
        (Test::AtMost(_, _), Body::Integers(_)) | (Test::Is(_, _), Body::Members(_))
    )
}

/// The outcomes that pass, or the others.
fn part(alloc: Global, d: &Domain, test: &Test, keep: bool) -> Result<Domain, AllocError>
    ensures { IfOk result (λ p. p ≡ spec.part keep test.now d.now) }
{
    match (d, test) {
        (Domain::Truths(t), _) => Ok(Domain::Truths(truths_part(*t, test, keep))),
        (Domain::Values(body, undefined), Test::AtMost(path, _) | Test::Is(path, _)) => {
            let kept = part_at(alloc, body, path.as_slice(), test, keep)?;
            Ok(Domain::Values(kept, *undefined && !keep))
        }
        (Domain::Values(body, undefined), Test::Defined) => {
            if keep {
                let body = body.copied(alloc)?;
                Ok(Domain::Values(body, false))
            } else {
                Ok(Domain::Values(Body::Empty, *undefined))
            }
        }
        _ => Ok(Domain::Values(Body::Empty, false)),
    }
}

fn truths_part(t: Truths, test: &Test, keep: bool) -> Truths
    ensures { result ≡ spec.truths_part keep test.now t }
{
    Truths {
        can_be_true: t.can_be_true && is_kept(matches!(test, Test::True), keep),
        can_be_false: t.can_be_false && is_kept(matches!(test, Test::False), keep),
        can_be_undefined: t.can_be_undefined && is_kept(matches!(test, Test::Undefined), keep),
    }
}

fn is_kept(passes: bool, keep: bool) -> bool
    ensures { result ≡ spec.is_kept keep passes }
{
    if keep { passes } else { !passes }
}

/// The values of a body that pass the test at the path, or the others.
fn part_at(
    alloc: Global,
    body: &Body,
    path: &[Side],
    test: &Test,
    keep: bool,
) -> Result<Body, AllocError>
    ensures { IfOk result (λ b. b ≡ spec.changed_at (spec.leaf keep test.now) path.now body.now) }
{
    match path {
        [] => leaf(alloc, body, test, keep),
        [side, rest @ ..] => match (body, side) {
            (Body::Pairs(first, second), Side::First) => {
                let first = part_at(alloc, first.get(), rest, test, keep)?;
                let second = second.get().copied(alloc)?;
                Body::pairs(alloc, first, second)
            }
            (Body::Pairs(first, second), Side::Second) => {
                let first = first.get().copied(alloc)?;
                let second = part_at(alloc, second.get(), rest, test, keep)?;
                Body::pairs(alloc, first, second)
            }
            _ => Ok(Body::Empty),
        },
    }
}

fn leaf(alloc: Global, body: &Body, test: &Test, keep: bool) -> Result<Body, AllocError>
    ensures { IfOk result (λ b. b ≡ spec.leaf keep test.now body.now) }
{
    match (test, body) {
        (Test::AtMost(_, n), Body::Integers(d)) => Ok(cut(*d, *n, keep)),
        (Test::Is(_, value), Body::Members(values)) => {
            let kept = alike(alloc, values.as_slice(), value, keep)?;
            Ok(Body::members(kept))
        }
        _ => Ok(Body::Empty),
    }
}

/// The integers that are at most a number, or those above it.
fn cut(d: Interval, n: i64, keep: bool) -> Body
    ensures { result ≡ spec.cut keep n d }
{
    if keep { low(d, n) } else { high(d, n) }
}

fn low(d: Interval, n: i64) -> Body
    ensures { result ≡ spec.cut true n d }
{
    filled(d.le(n).0)
}

fn high(d: Interval, n: i64) -> Body
    ensures { result ≡ spec.cut false n d }
{
    filled(d.le(n).1)
}

fn filled(d: Option<Interval>) -> Body
    ensures { result ≡ spec.body_of d }
{
    match d {
        Some(d) => Body::Integers(d),
        None => Body::Empty,
    }
}

/// The values of a list that are the value, or the others.
fn alike(alloc: Global, values: &[Value], value: &Value, keep: bool) -> Result<Values, AllocError>
    ensures { IfOk result (λ kept. kept ≡ filter (spec.is_alike keep value.now) values.now) }
{
    let mut kept = Values::new(alloc);
    for other in values {
        if is_kept(compare(other, value).is_eq(), keep) {
            kept.push(other.copied(alloc)?)?;
        }
    }
    Ok(kept)
}
