//! The ranges of a binder. The only error of each function is want of memory.
ghost use Rattle.std.specs.Prelude.{◌≡◌, ◌≤◌, IfOk, OnOk, Bool, true, false, if◌then◌else◌, List, [], ◌∷◌, ◌++◌, map, max};
ghost use Rattle.std.specs.List.{list_all};
ghost use Rattle.std.specs.Option.{option_copied};
ghost use Rattle.eb_resolved.specs.declared.resolved.Resolved.{size-Resolved};
ghost use Rattle.eb_forms.specs.Forms.{is_value as is_value_kind};
ghost use Rattle.eb_lowering.specs.Anchors as anchor;
ghost use Rattle.eb_lowering.specs.Lowering as spec;
ghost use Rattle.eb_lowering.specs.declared.setting.Setting.{Setting};
ghost use Rattle.eb_lowering.specs.steps.Anchoring as step;

use crate::around::Leaf;
use crate::kinds::{is_among, kind_of, uses_any};
use crate::numbers::Numbers;
use eb_forms::Kind;
use eb_resolved::{Resolved, ResolvedNode};
use eb_syntax::{Operator, Quantifier};
use eb_term::{Path, Side};
use sqlite_items::Items;
use std::alloc::{AllocError, Global};

/// A range of a binder: for these identifiers the members of a set, or for one all values of its type.
#[derive(Drop)]
pub(crate) enum Range<'a> {
    Over(Items<Leaf>, &'a Resolved),
    All(u32),
}

/// An identifier of a pair, which stands at this path.
fn leaf_at(alloc: Global, number: u32, path: &[Side]) -> Result<Leaf, AllocError>
    ensures { IfOk result (λ l. l ≡ record { number = number; path = path.now }) }
{
    let path = Items::from_slice(alloc, path)?;
    Ok(Leaf { number, path })
}

/// The path of a part of what stands at this path.
fn path_to(alloc: Global, path: &[Side], side: Side) -> Result<Path, AllocError>
    ensures { IfOk result (λ p. p ≡ path.now ++ side ∷ []) }
{
    let mut longer = Items::from_slice(alloc, path)?;
    longer.push(side)?;
    Ok(longer)
}

/// `|->`
fn is_maplet(operator: Operator) -> bool
    ensures { result ≡ step.is_maplet operator }
{
    matches!(operator, Operator::MapsTo)
}

/// `&`
fn is_conjunction(operator: Operator) -> bool
    ensures { result ≡ step.is_conjunction operator }
{
    matches!(operator, Operator::And)
}

/// `:`
fn is_membership(operator: Operator) -> bool
    ensures { result ≡ step.is_membership operator }
{
    matches!(operator, Operator::MemberOf)
}

/// `=>`
fn is_implication(operator: Operator) -> bool
    ensures { result ≡ step.is_implication operator }
{
    matches!(operator, Operator::Implies)
}

/// The identifiers that a formula is made of by `|->`, which stands at this path: whether it is so, and then these are written to
/// the end.
#[cycle(leaves)]
fn push_leaves(
    alloc: Global,
    formula: &Resolved,
    path: &[Side],
    leaves: &mut Items<Leaf>,
) -> Result<bool, AllocError>
    ensures { IfOk result (λ is_made. (s : Setting) → step.Writes leaves.old leaves.new path.now is_made (spec.lowered s formula.now).leaves) }
{
    match &formula.node {
        ResolvedNode::Identifier(number) => {
            let leaf = leaf_at(alloc, *number, path)?;
            leaves.push(leaf)?;
            Ok(true)
        }
        ResolvedNode::Operator(operator, first, second) => {
            if is_maplet(*operator) {
                let is_made = push_pair(alloc, first.get(), second.get(), path, leaves)?;
                Ok(is_made)
            } else {
                Ok(false)
            }
        }
        ResolvedNode::Number(_)
        | ResolvedNode::Primed(_)
        | ResolvedNode::Unknown(_, _)
        | ResolvedNode::Constant(_)
        | ResolvedNode::Mark(_, _)
        | ResolvedNode::Prefix(_, _)
        | ResolvedNode::Call(_, _)
        | ResolvedNode::Inverse(_)
        | ResolvedNode::Quantifier(_, _, _)
        | ResolvedNode::Binder(_, _, _, _, _)
        | ResolvedNode::Comprehension(_, _, _)
        | ResolvedNode::Builder(_, _, _)
        | ResolvedNode::Extension(_)
        | ResolvedNode::Partition(_) => Ok(false),
    }
}

/// The same of a pair of these parts, which stands at this path.
#[cycle(leaves)]
fn push_pair(
    alloc: Global,
    first: &Resolved,
    second: &Resolved,
    path: &[Side],
    leaves: &mut Items<Leaf>,
) -> Result<bool, AllocError>
    ensures { IfOk result (λ is_made. (s : Setting) → step.Writes leaves.old leaves.new path.now is_made (anchor.paired (spec.lowered s first.now).leaves (spec.lowered s second.now).leaves)) }
{
    let is_first = push_part(alloc, first, path, Side::First, leaves)?;
    if !is_first {
        return Ok(false);
    }
    let is_second = push_part(alloc, second, path, Side::Second, leaves)?;
    Ok(is_second)
}

/// The same of a part of what stands at this path.
#[cycle(leaves)]
fn push_part(
    alloc: Global,
    formula: &Resolved,
    path: &[Side],
    side: Side,
    leaves: &mut Items<Leaf>,
) -> Result<bool, AllocError>
    ensures { IfOk result (λ is_made. (s : Setting) → step.Writes leaves.old leaves.new (path.now ++ side ∷ []) is_made (spec.lowered s formula.now).leaves) }
{
    let path = path_to(alloc, path, side)?;
    let is_made = push_leaves(alloc, formula, path.as_slice(), leaves)?;
    Ok(is_made)
}

/// The identifiers that a formula is made of by `|->`, if it is so.
fn leaves_of(alloc: Global, formula: &Resolved) -> Result<Option<Items<Leaf>>, AllocError>
    ensures { IfOk result (λ leaves. (s : Setting) → leaves ≡ (spec.lowered s formula.now).leaves) }
{
    let mut leaves = Items::new(alloc);
    let is_made = push_leaves(alloc, formula, &[], &mut leaves)?;
    if is_made { Ok(Some(leaves)) } else { Ok(None) }
}

/// Whether the identifier is one of these.
fn has_number(leaves: &[Leaf], number: u32) -> bool
    ensures { result ≡ anchor.is_in (anchor.numbers_of leaves.now) number }
{
    for leaf in leaves {
        if leaf.number == number {
            return true;
        }
    }
    false
}

fn are_distinct(leaves: &[Leaf]) -> bool
    ensures { result ≡ anchor.are_distinct (anchor.numbers_of leaves.now) }
{
    match leaves {
        [] => true,
        [first, rest @ ..] => !has_number(rest, first.number) && are_distinct(rest),
    }
}

/// Whether each of the identifiers is one of those that have no anchor.
fn are_free(leaves: &[Leaf], free: &[u32]) -> bool
    ensures { result ≡ list_all (anchor.is_in free.now) (anchor.numbers_of leaves.now) }
{
    for leaf in leaves {
        if !is_among(free, leaf.number) {
            return false;
        }
    }
    true
}

fn is_value(kind: Kind) -> bool
    ensures { result ≡ is_value_kind kind }
{
    match kind {
        Kind::Value => true,
        Kind::Integers | Kind::Form => false,
    }
}

/// Whether these identifiers are bound by a set, which is a value or not and uses some that have no anchor or not.
fn is_bound(leaves: &[Leaf], free: &[u32], is_value: bool, uses_free: bool) -> bool
    ensures { result ≡ step.is_bound leaves.now free.now is_value uses_free }
{
    are_distinct(leaves) && are_free(leaves, free) && is_value && !uses_free
}

/// Whether `p : E` is an anchor, where p is made of these identifiers and those of the binder have no anchor yet.
fn is_anchor(leaves: &[Leaf], range: &Resolved, free: &[u32]) -> bool
    ensures { (s : Setting) → result ≡ anchor.anchors free.now (step.conjunct s leaves.now range.now) leaves.now }
{
    let is_value = is_value(kind_of(range));
    let uses_free = uses_any(range, free);
    is_bound(leaves, free, is_value, uses_free)
}

/// Those that have no anchor yet, behind one with these identifiers.
fn without(alloc: Global, free: &[u32], leaves: &[Leaf]) -> Result<Numbers, AllocError>
    ensures { IfOk result (λ left. left ≡ anchor.without free.now leaves.now) }
{
    let mut left = Items::new(alloc);
    for number in free {
        if !has_number(leaves, *number) {
            left.push(*number)?;
        }
    }
    Ok(left)
}

/// Reads the conjunct `element : range`, and answers whether it was an anchor.
fn push_anchor<'a>(
    alloc: Global,
    element: &Resolved,
    range: &'a Resolved,
    free: &mut Numbers,
    ranges: &mut Vec<Range<'a>>,
) -> Result<bool, AllocError>
    ensures reads { IfOk result (λ goes_on. (s : Setting) → step.Anchors s (spec.membership (spec.lowered s element.now) (spec.lowered s range.now)) free.old free.new ranges.old.items ranges.new.items goes_on) }
    ensures smaller { OnOk result (step.largest ranges.new.items ≤ max (step.largest ranges.old.items) (size-Resolved range.now)) }
{
    let Some(leaves) = leaves_of(alloc, element)? else {
        return Ok(false);
    };
    if !is_anchor(leaves.as_slice(), range, free.as_slice()) {
        return Ok(false);
    }
    *free = without(alloc, free.as_slice(), leaves.as_slice())?;
    ranges.push(Range::Over(leaves, range))?;
    Ok(true)
}

/// Reads the anchors of a predicate, and answers whether each of its conjuncts was one.
#[cycle(anchors)]
fn push_anchors<'a>(
    alloc: Global,
    predicate: &'a Resolved,
    free: &mut Numbers,
    ranges: &mut Vec<Range<'a>>,
) -> Result<bool, AllocError>
    ensures reads { IfOk result (λ goes_on. (s : Setting) → step.Anchors s (spec.lowered s predicate.now).conjuncts free.old free.new ranges.old.items ranges.new.items goes_on) }
    ensures smaller { OnOk result (step.largest ranges.new.items ≤ max (step.largest ranges.old.items) (size-Resolved predicate.now)) }
{
    match &predicate.node {
        ResolvedNode::Operator(operator, first, second) => {
            if is_conjunction(*operator) {
                let goes_on = push_both(alloc, first.get(), second.get(), free, ranges)?;
                Ok(goes_on)
            } else if is_membership(*operator) {
                let goes_on = push_anchor(alloc, first.get(), second.get(), free, ranges)?;
                Ok(goes_on)
            } else {
                Ok(false)
            }
        }
        ResolvedNode::Number(_)
        | ResolvedNode::Identifier(_)
        | ResolvedNode::Primed(_)
        | ResolvedNode::Unknown(_, _)
        | ResolvedNode::Constant(_)
        | ResolvedNode::Mark(_, _)
        | ResolvedNode::Prefix(_, _)
        | ResolvedNode::Call(_, _)
        | ResolvedNode::Inverse(_)
        | ResolvedNode::Quantifier(_, _, _)
        | ResolvedNode::Binder(_, _, _, _, _)
        | ResolvedNode::Comprehension(_, _, _)
        | ResolvedNode::Builder(_, _, _)
        | ResolvedNode::Extension(_)
        | ResolvedNode::Partition(_) => Ok(false),
    }
}

/// The same of the conjunction of two predicates.
#[cycle(anchors)]
fn push_both<'a>(
    alloc: Global,
    first: &'a Resolved,
    second: &'a Resolved,
    free: &mut Numbers,
    ranges: &mut Vec<Range<'a>>,
) -> Result<bool, AllocError>
    ensures reads { IfOk result (λ goes_on. (s : Setting) → step.Anchors s ((spec.lowered s first.now).conjuncts ++ (spec.lowered s second.now).conjuncts) free.old free.new ranges.old.items ranges.new.items goes_on) }
    ensures smaller { OnOk result (step.largest ranges.new.items ≤ max (step.largest ranges.old.items) (max (size-Resolved first.now) (size-Resolved second.now))) }
{
    let goes_on = push_anchors(alloc, first, free, ranges)?;
    if !goes_on {
        return Ok(false);
    }
    let goes_on = push_anchors(alloc, second, free, ranges)?;
    Ok(goes_on)
}

/// Reads the anchors of a predicate, if there is one.
fn push_some<'a>(
    alloc: Global,
    predicate: Option<&'a Resolved>,
    free: &mut Numbers,
    ranges: &mut Vec<Range<'a>>,
) -> Result<bool, AllocError>
    ensures reads { IfOk result (λ goes_on. (s : Setting) → step.Anchors s (step.conjuncts_of s (option_copied predicate.entry)) free.old free.new ranges.old.items ranges.new.items goes_on) }
    ensures smaller { OnOk result (step.largest ranges.new.items ≤ max (step.largest ranges.old.items) (step.size_of (option_copied predicate.entry))) }
{
    match predicate {
        Some(predicate) => {
            let goes_on = push_anchors(alloc, predicate, free, ranges)?;
            Ok(goes_on)
        }
        None => Ok(true),
    }
}

/// One range for each of the identifiers behind the others.
fn push_all(free: &[u32], ranges: &mut Vec<Range<'_>>) -> Result<(), AllocError>
    ensures { OnOk result (ranges.new.items ≡ ranges.old.items ++ map step.of_all free.now) }
{
    for number in free {
        ranges.push(Range::All(*number))?;
    }
    Ok(())
}

/// The ranges of a binder with these identifiers: the anchors of the predicate, if there is one, and then what is left.
pub(crate) fn ranges_of<'a>(
    alloc: Global,
    free: Numbers,
    predicate: Option<&'a Resolved>,
) -> Result<Vec<Range<'a>>, AllocError>
    ensures reads { IfOk result (λ ranges. (s : Setting) → map (step.seen s) ranges.items ≡ anchor.ranges_of free (step.conjuncts_of s (option_copied predicate.entry))) }
    ensures smaller { IfOk result (λ ranges. step.largest ranges.items ≤ step.size_of (option_copied predicate.entry)) }
{
    let mut free = free;
    let mut ranges = Vec::new(alloc);
    push_some(alloc, predicate, &mut free, &mut ranges)?;
    push_all(free.as_slice(), &mut ranges)?;
    Ok(ranges)
}

/// The left side of an implication, if the predicate is one.
fn premise(predicate: &Resolved) -> Option<&Resolved>
    ensures reads { (s : Setting) → step.conjuncts_of s (option_copied result) ≡ (spec.lowered s predicate.now).premises }
    ensures smaller { step.size_of (option_copied result) ≤ size-Resolved predicate.now }
{
    match &predicate.node {
        ResolvedNode::Operator(operator, left, _) => {
            if is_implication(*operator) {
                Some(left.get())
            } else {
                None
            }
        }
        ResolvedNode::Number(_)
        | ResolvedNode::Identifier(_)
        | ResolvedNode::Primed(_)
        | ResolvedNode::Unknown(_, _)
        | ResolvedNode::Constant(_)
        | ResolvedNode::Mark(_, _)
        | ResolvedNode::Prefix(_, _)
        | ResolvedNode::Call(_, _)
        | ResolvedNode::Inverse(_)
        | ResolvedNode::Quantifier(_, _, _)
        | ResolvedNode::Binder(_, _, _, _, _)
        | ResolvedNode::Comprehension(_, _, _)
        | ResolvedNode::Builder(_, _, _)
        | ResolvedNode::Extension(_)
        | ResolvedNode::Partition(_) => None,
    }
}

/// The predicate that has the anchors: for `!` the left side of an implication, if it is one.
pub(crate) fn anchored(quantifier: Quantifier, part: &Resolved) -> Option<&Resolved>
    ensures reads { (s : Setting) → step.conjuncts_of s (option_copied result) ≡ spec.anchors_of quantifier (spec.lowered s part.now) }
    ensures smaller { step.size_of (option_copied result) ≤ size-Resolved part.now }
{
    match quantifier {
        Quantifier::Exists => Some(part),
        Quantifier::ForAll => premise(part),
    }
}
