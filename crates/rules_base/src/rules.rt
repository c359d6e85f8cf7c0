//! The rules by operator.
ghost use Rattle.std.specs.Prelude.{◌≡◌, true, Some, IfOk};
ghost use Rattle.occ_domains.specs.Domains.{Outcome, has, is_normal};
ghost use Rattle.rules_base.specs.Outcomes.{of_one, of_two, of_sides, is_ranged};
ghost use Rattle.rules_base.specs.Rules as spec;

use crate::comparisons::{down_equal, down_order, up_equal, up_order};
use crate::connectives::{down_connective, down_negation, up_connective, up_negation};
use crate::definedness::{down_as_value, down_defined, up_as_value, up_defined};
use crate::integers::{down_integers, up_integers};
use crate::pairs::{down_pair, down_part, up_part};
use crate::rule::{BinaryRule, UnaryRule};
use eb_term::Side;
use eb_value::order_is_total;
use occ_domains::{Body, Domain, Truths, bodies_have_their_values};
use rules_integers::rows_of_integers_are_sound;
use std::alloc::{AllocError, Global};

/// What a formula of one part may be by what the part may be: whatever comes of the part, what comes of the formula is there. In
/// normal form where the part is. The only error is want of memory.
pub fn up_unary(alloc: Global, rule: UnaryRule, part: &Domain) -> Result<Domain, AllocError>
    ensures row { IfOk result (λ d. d ≡ spec.up_one rule part.now) }
    ensures sound { IfOk result (λ d. (x z : Outcome) → has part.now x ≡ true → of_one rule x ≡ Some z → has d z ≡ true) }
    ensures normal { is_normal part.now ≡ true → IfOk result (λ d. is_normal d ≡ true) }
{
    bodies_have_their_values();
    risen(alloc, rule, part)
}

fn risen(alloc: Global, rule: UnaryRule, part: &Domain) -> Result<Domain, AllocError>
    ensures { IfOk result (λ d. d ≡ spec.up_one rule part.now) }
{
    match (rule, part) {
        (UnaryRule::Negation, Domain::Truths(t)) => Ok(Domain::Truths(up_negation(*t))),
        (UnaryRule::Defined, Domain::Values(b, u)) => Ok(Domain::Truths(up_defined(b, *u))),
        (UnaryRule::AsValue, Domain::Truths(t)) => up_as_value(alloc, *t),
        (UnaryRule::Part(side), Domain::Values(b, u)) => up_part(alloc, side, b, *u),
        _ => Ok(Domain::Values(Body::Empty, false)),
    }
}

/// What a formula of two parts may be by what the parts may be: whatever comes of the parts, where integers are of the range, what
/// comes of the formula is there. In normal form where the left part is, and of a pair both are. The only error is want of memory.
pub fn up_binary(
    alloc: Global,
    rule: BinaryRule,
    left: &Domain,
    right: &Domain,
) -> Result<Domain, AllocError>
    ensures row { IfOk result (λ d. d ≡ spec.up_two rule left.now right.now) }
    ensures sound { IfOk result (λ d. (x y z : Outcome) → is_ranged x ≡ true → is_ranged y ≡ true
        → has left.now x ≡ true → has right.now y ≡ true → of_two rule x y ≡ Some z → has d z ≡ true) }
    ensures normal { is_normal left.now ≡ true → is_normal right.now ≡ true → IfOk result (λ d. is_normal d ≡ true) }
{
    bodies_have_their_values();
    order_is_total();
    rows_of_integers_are_sound();
    joined(alloc, rule, left, right)
}

fn joined(
    alloc: Global,
    rule: BinaryRule,
    left: &Domain,
    right: &Domain,
) -> Result<Domain, AllocError>
    ensures { IfOk result (λ d. d ≡ spec.up_two rule left.now right.now) }
{
    match (left, right) {
        (Domain::Truths(s), Domain::Truths(t)) => Ok(of_truths(rule, *s, *t)),
        (Domain::Values(a, u), Domain::Values(b, v)) => of_values(alloc, rule, a, b, *u || *v),
        _ => Ok(Domain::Values(Body::Empty, false)),
    }
}

/// What a part may be by what the formula of which it is the one part may be: what comes of the part stays, where what comes of the
/// formula is one of the whole. In normal form where the part is. The only error is want of memory.
pub fn down_unary(
    alloc: Global,
    rule: UnaryRule,
    whole: &Domain,
    part: &Domain,
) -> Result<Domain, AllocError>
    ensures row { IfOk result (λ d. d ≡ spec.down_one rule whole.now part.now) }
    ensures sound { IfOk result (λ d. (x z : Outcome) → has part.now x ≡ true → of_one rule x ≡ Some z → has whole.now z ≡ true
        → has d x ≡ true) }
    ensures normal { is_normal part.now ≡ true → IfOk result (λ d. is_normal d ≡ true) }
{
    bodies_have_their_values();
    fallen(alloc, rule, whole, part)
}

/// What a part may be by what the formula and its other part may be: what comes of the part stays, where what comes of the formula
/// is one of the whole, and integers are of the range. In normal form where the part is. The only error is want of memory.
pub fn down_binary(
    alloc: Global,
    rule: BinaryRule,
    side: Side,
    whole: &Domain,
    part: &Domain,
    other: &Domain,
) -> Result<Domain, AllocError>
    ensures row { IfOk result (λ d. d ≡ spec.down_two rule side whole.now part.now other.now) }
    ensures sound { IfOk result (λ d. (x y z : Outcome) → is_ranged x ≡ true → is_ranged y ≡ true
        → has part.now x ≡ true → has other.now y ≡ true → of_sides rule side x y ≡ Some z → has whole.now z ≡ true
        → has d x ≡ true) }
    ensures normal { is_normal part.now ≡ true → IfOk result (λ d. is_normal d ≡ true) }
{
    bodies_have_their_values();
    order_is_total();
    rows_of_integers_are_sound();
    parted(alloc, rule, side, whole, part, other)
}

fn of_truths(rule: BinaryRule, left: Truths, right: Truths) -> Domain
    ensures { result ≡ spec.of_truths rule left right }
{
    match rule {
        BinaryRule::Connective(connective) => {
            Domain::Truths(up_connective(connective, left, right))
        }
        _ => Domain::Values(Body::Empty, false),
    }
}

fn of_values(
    alloc: Global,
    rule: BinaryRule,
    a: &Body,
    b: &Body,
    undefined: bool,
) -> Result<Domain, AllocError>
    ensures { IfOk result (λ d. d ≡ spec.of_values rule undefined a.now b.now) }
{
    match rule {
        BinaryRule::Equal => {
            let truths = up_equal(alloc, undefined, a, b)?;
            Ok(Domain::Truths(truths))
        }
        BinaryRule::AtMost => Ok(Domain::Truths(up_order(undefined, a, b))),
        BinaryRule::Pair => {
            let first = a.copied(alloc)?;
            let second = b.copied(alloc)?;
            let body = Body::pairs(alloc, first, second)?;
            Ok(Domain::Values(body, undefined))
        }
        BinaryRule::Arithmetic(operator) => Ok(up_integers(operator, undefined, a, b)),
        BinaryRule::Connective(_) => Ok(Domain::Values(Body::Empty, false)),
    }
}

fn fallen(
    alloc: Global,
    rule: UnaryRule,
    whole: &Domain,
    part: &Domain,
) -> Result<Domain, AllocError>
    ensures { IfOk result (λ d. d ≡ spec.down_one rule whole.now part.now) }
{
    match (rule, whole, part) {
        (UnaryRule::Negation, Domain::Truths(w), Domain::Truths(t)) => {
            Ok(Domain::Truths(down_negation(*w, *t)))
        }
        (UnaryRule::Defined, Domain::Truths(w), Domain::Values(b, undefined)) => {
            down_defined(alloc, *w, b, *undefined)
        }
        (UnaryRule::AsValue, Domain::Values(w, undefined), Domain::Truths(t)) => {
            Ok(Domain::Truths(down_as_value(w, *undefined, *t)))
        }
        (UnaryRule::Part(side), Domain::Values(w, false), Domain::Values(b, _)) => {
            let body = down_part(alloc, side, w, b)?;
            Ok(Domain::Values(body, false))
        }
        _ => part.copied(alloc),
    }
}

fn parted(
    alloc: Global,
    rule: BinaryRule,
    side: Side,
    whole: &Domain,
    part: &Domain,
    other: &Domain,
) -> Result<Domain, AllocError>
    ensures { IfOk result (λ d. d ≡ spec.down_two rule side whole.now part.now other.now) }
{
    match (whole, part, other) {
        (Domain::Truths(w), Domain::Truths(t), Domain::Truths(o)) => {
            Ok(Domain::Truths(down_truths(rule, side, *w, *t, *o)))
        }
        (Domain::Truths(w), Domain::Values(a, _), Domain::Values(b, _)) => {
            if w.can_be_undefined {
                return part.copied(alloc);
            }
            let body = compared(alloc, rule, side, *w, a, b)?;
            Ok(Domain::Values(body, false))
        }
        (Domain::Values(w, false), Domain::Values(a, _), Domain::Values(b, _)) => {
            let body = operand(alloc, rule, side, w, a, b)?;
            Ok(Domain::Values(body, false))
        }
        _ => part.copied(alloc),
    }
}

fn down_truths(rule: BinaryRule, side: Side, whole: Truths, part: Truths, other: Truths) -> Truths
    ensures { result ≡ spec.down_truths rule side whole part other }
{
    match rule {
        BinaryRule::Connective(connective) => {
            down_connective(connective, side, whole, part, other)
        }
        _ => part,
    }
}

/// To a side of a predicate of two expressions.
fn compared(
    alloc: Global,
    rule: BinaryRule,
    side: Side,
    whole: Truths,
    part: &Body,
    other: &Body,
) -> Result<Body, AllocError>
    ensures { IfOk result (λ b. b ≡ spec.down_compared rule side whole part.now other.now) }
{
    match rule {
        BinaryRule::Equal => down_equal(alloc, whole, part, other),
        BinaryRule::AtMost => down_order(alloc, side, whole, part, other),
        _ => part.copied(alloc),
    }
}

/// To a side of an expression of two.
fn operand(
    alloc: Global,
    rule: BinaryRule,
    side: Side,
    whole: &Body,
    part: &Body,
    other: &Body,
) -> Result<Body, AllocError>
    ensures { IfOk result (λ b. b ≡ spec.down_operand rule side whole.now part.now other.now) }
{
    match rule {
        BinaryRule::Pair => down_pair(alloc, side, whole, part, other),
        BinaryRule::Arithmetic(operator) => {
            down_integers(alloc, operator, side, whole, part, other)
        }
        _ => part.copied(alloc),
    }
}
