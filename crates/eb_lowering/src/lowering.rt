//! Terms of formulas. The only error of each function is want of memory.
ghost use Rattle.std.specs.Prelude.{◌≡◌, IfOk, OnOk, [], ◌∷◌, ◌++◌, map};
ghost use Rattle.eb_forms.specs.Widths.{bound_identifiers};
ghost use Rattle.eb_term.specs.Terms as term;
ghost use Rattle.eb_term.specs.declared.operators.Binder.TheVariants as binders;
ghost use Rattle.eb_resolved.specs.Resolving.{entries_from};
ghost use Rattle.narrow_terms.specs.Building as built;
ghost use Rattle.eb_lowering.specs.Anchors as anchor;
ghost use Rattle.eb_lowering.specs.Lowering as spec;
ghost use Rattle.eb_lowering.specs.steps.Anchoring as anchoring;
ghost use Rattle.eb_lowering.specs.steps.Binding as step;

use crate::anchors::{Range, anchored, ranges_of};
use crate::around::Around;
use crate::binding::{
    Body, Made, MadeRanges, enter, gathered, gathered_body, guarded, members, quantifier_binder,
    under_all,
};
use crate::leaves::{constant_term, no_value, number_term};
use crate::marks::mark_term;
use crate::numbers::{bound_numbers, entry_numbers};
use crate::pattern::{maplet, pattern_term};
use crate::setting::Setting;
use eb_resolved::{Resolved, ResolvedNode};
use eb_syntax::{Binder as Gatherer, Bound, Constant, Quantifier};
use eb_term::{Binary, Binder, Many, Term, Terms, Unary};
use eb_value::EbType;
use narrow_terms::extension;
use numbered_names::Entry;
use sqlite_items::Items;
use std::alloc::{AllocError, Global};

/// The term of a formula that stands under no binder, which has the setting's terms in place of declared identifiers. What can't
/// have a value, as a number out of range or a name that stands for nothing, becomes an expression without a value. The only
/// error is want of memory, which also comes where a number of an identifier or of a binder passes 2^32.
pub fn term_of(alloc: Global, setting: &Setting, formula: &Resolved) -> Result<Term, AllocError>
    ensures { IfOk result (λ t. t ≡ spec.term_of setting.now formula.now) }
{
    let mut around = Around::new(alloc);
    term_at(alloc, setting, formula, &mut around)
}

fn mark_at(
    alloc: Global,
    setting: &Setting,
    constant: Constant,
    number: u32,
) -> Result<Term, AllocError>
    ensures { IfOk result (λ t. t ≡ spec.mark_term constant (spec.type_at setting.now number)) }
{
    let ty = setting.type_at(alloc, number)?;
    mark_term(alloc, constant, ty.get())
}

/// The term of a formula by the binders around it.
#[cycle(lowering)]
fn term_at(
    alloc: Global,
    setting: &Setting,
    formula: &Resolved,
    around: &mut Around,
) -> Result<Term, AllocError>
    ensures term { IfOk result (λ t. t ≡ (spec.lowered setting.now formula.now).term around.old) }
    ensures same { OnOk result (around.new ≡ around.old) }
{
    match &formula.node {
        ResolvedNode::Number(n) => number_term(alloc, *n),
        ResolvedNode::Identifier(number) => around.identifier(alloc, setting, *number),
        ResolvedNode::Primed(number) => setting.missing(alloc, *number),
        ResolvedNode::Unknown(_, _) => no_value(alloc, EbType::boolean()),
        ResolvedNode::Constant(constant) => constant_term(alloc, *constant),
        ResolvedNode::Mark(constant, number) => mark_at(alloc, setting, *constant, *number),
        ResolvedNode::Prefix(prefix, part) => {
            one(alloc, setting, Unary::Prefix(*prefix), part.get(), around)
        }
        ResolvedNode::Call(call, part) => {
            one(alloc, setting, Unary::Call(*call), part.get(), around)
        }
        ResolvedNode::Inverse(part) => one(alloc, setting, Unary::Inverse, part.get(), around),
        ResolvedNode::Operator(operator, left, right) => {
            two(
                alloc,
                setting,
                Binary::Operator(*operator),
                left.get(),
                right.get(),
                around,
            )
        }
        ResolvedNode::Quantifier(quantifier, entries, part) => {
            quantified(
                alloc,
                setting,
                *quantifier,
                entries.as_slice(),
                part.get(),
                around,
            )
        }
        ResolvedNode::Binder(gatherer, bound, first, condition, value) => {
            gathered_at(
                alloc,
                setting,
                *gatherer,
                bound,
                *first,
                condition.get(),
                value.get(),
                around,
            )
        }
        ResolvedNode::Comprehension(entries, condition, value) => {
            comprehension(
                alloc,
                setting,
                entries.as_slice(),
                condition.get(),
                value.get(),
                around,
            )
        }
        ResolvedNode::Builder(entries, value, condition) => {
            comprehension(
                alloc,
                setting,
                entries.as_slice(),
                condition.get(),
                value.get(),
                around,
            )
        }
        ResolvedNode::Extension(members) => {
            row(alloc, setting, Many::Extension, members.as_slice(), around)
        }
        ResolvedNode::Partition(members) => {
            row(alloc, setting, Many::Partition, members.as_slice(), around)
        }
    }
}

/// A formula with one part.
#[cycle(lowering)]
fn one(
    alloc: Global,
    setting: &Setting,
    operator: Unary,
    part: &Resolved,
    around: &mut Around,
) -> Result<Term, AllocError>
    ensures term { IfOk result (λ t. t ≡ term.unary operator ((spec.lowered setting.now part.now).term around.old)) }
    ensures same { OnOk result (around.new ≡ around.old) }
{
    let part = term_at(alloc, setting, part, around)?;
    Term::unary(alloc, operator, part)
}

/// A formula with two parts.
#[cycle(lowering)]
fn two(
    alloc: Global,
    setting: &Setting,
    operator: Binary,
    left: &Resolved,
    right: &Resolved,
    around: &mut Around,
) -> Result<Term, AllocError>
    ensures term { IfOk result (λ t. t ≡ term.binary operator ((spec.lowered setting.now left.now).term around.old) ((spec.lowered setting.now right.now).term around.old)) }
    ensures same { OnOk result (around.new ≡ around.old) }
{
    let left = term_at(alloc, setting, left, around)?;
    let right = term_at(alloc, setting, right, around)?;
    Term::binary(alloc, operator, left, right)
}

/// A formula with any number of parts.
#[cycle(lowering)]
fn row(
    alloc: Global,
    setting: &Setting,
    operator: Many,
    parts: &[Resolved],
    around: &mut Around,
) -> Result<Term, AllocError>
    ensures term { IfOk result (λ t. t ≡ term.many operator (map (λ l. l.term around.old) (map (spec.lowered setting.now) parts.now))) }
    ensures same { OnOk result (around.new ≡ around.old) }
{
    let parts = terms_at(alloc, setting, parts, around)?;
    Ok(Term::many(operator, parts))
}

#[cycle(lowering)]
fn terms_at(
    alloc: Global,
    setting: &Setting,
    formulas: &[Resolved],
    around: &mut Around,
) -> Result<Terms, AllocError>
    ensures terms { IfOk result (λ ts. ts ≡ map (λ l. l.term around.old) (map (spec.lowered setting.now) formulas.now)) }
    ensures same { OnOk result (around.new ≡ around.old) }
{
    let mut terms = Items::new(alloc);
    for formula in formulas {
        let term = term_at(alloc, setting, formula, around)?;
        terms.push(term)?;
    }
    Ok(terms)
}

/// `!` or `#`: what is bound and the predicate.
#[cycle(lowering)]
fn quantified(
    alloc: Global,
    setting: &Setting,
    quantifier: Quantifier,
    entries: &[Entry],
    part: &Resolved,
    around: &mut Around,
) -> Result<Term, AllocError>
    ensures term { IfOk result (λ t. t ≡ (spec.quantified setting.now quantifier (spec.entry_numbers entries.now) (spec.lowered setting.now part.now)).term around.old) }
    ensures same { OnOk result (around.new ≡ around.old) }
{
    let numbers = entry_numbers(alloc, entries)?;
    let ranges = ranges_of(alloc, numbers, anchored(quantifier, part))?;
    let binder = quantifier_binder(quantifier);
    bound_at(
        alloc,
        setting,
        binder,
        &ranges,
        Body::Predicate(part),
        around,
    )
}

/// `{x.P|E}`: what is bound, the predicate and the expression.
#[cycle(lowering)]
fn comprehension(
    alloc: Global,
    setting: &Setting,
    entries: &[Entry],
    condition: &Resolved,
    value: &Resolved,
    around: &mut Around,
) -> Result<Term, AllocError>
    ensures term { IfOk result (λ t. t ≡ spec.comprehension setting.now (spec.entry_numbers entries.now) (spec.lowered setting.now condition.now) (spec.lowered setting.now value.now).term around.old) }
    ensures same { OnOk result (around.new ≡ around.old) }
{
    let numbers = entry_numbers(alloc, entries)?;
    let ranges = ranges_of(alloc, numbers, Some(condition))?;
    let body = Body::Members(condition, value);
    bound_at(alloc, setting, Binder::Collect, &ranges, body, around)
}

/// `%`, `UNION` or `INTER`: what is bound, the number of its first identifier, the predicate and the expression.
#[cycle(lowering)]
fn gathered_at(
    alloc: Global,
    setting: &Setting,
    gatherer: Gatherer,
    bound: &Bound,
    first: u32,
    condition: &Resolved,
    value: &Resolved,
    around: &mut Around,
) -> Result<Term, AllocError>
    ensures term { IfOk result (λ t. t ≡ spec.gathered setting.now gatherer bound.now first (spec.entry_numbers (entries_from first (bound_identifiers bound.now))) (spec.lowered setting.now condition.now) (spec.lowered setting.now value.now) around.old) }
    ensures same { OnOk result (around.new ≡ around.old) }
{
    let body = gathered_body(gatherer, bound, first, condition, value);
    let set = collected(alloc, setting, bound, first, condition, body, around)?;
    gathered(alloc, gatherer, set)
}

/// What `%`, `UNION` or `INTER` collects: what is bound, the number of its first identifier, the predicate and the body.
#[cycle(lowering)]
fn collected(
    alloc: Global,
    setting: &Setting,
    bound: &Bound,
    first: u32,
    condition: &Resolved,
    body: Body<'_>,
    around: &mut Around,
) -> Result<Term, AllocError>
    ensures term { IfOk result (λ t. t ≡ spec.bind setting.now binders.Collect (anchor.ranges_of (spec.entry_numbers (entries_from first (bound_identifiers bound.now))) (spec.lowered setting.now condition.now).conjuncts) (step.body_term setting.now body.entry) around.old) }
    ensures same { OnOk result (around.new ≡ around.old) }
{
    let numbers = bound_numbers(alloc, first, bound)?;
    let ranges = ranges_of(alloc, numbers, Some(condition))?;
    bound_at(alloc, setting, Binder::Collect, &ranges, body, around)
}

/// A body under a binder for each range, the first outermost.
#[cycle(lowering)]
fn bound_at(
    alloc: Global,
    setting: &Setting,
    binder: Binder,
    ranges: &[Range<'_>],
    body: Body<'_>,
    around: &mut Around,
) -> Result<Term, AllocError>
    ensures term { IfOk result (λ t. t ≡ spec.bind setting.now binder (map (anchoring.seen setting.now) ranges.now) (step.body_term setting.now body.entry) around.old) }
    ensures same { OnOk result (around.new ≡ around.old) }
{
    let mut made = Items::new(alloc);
    let term = inside(alloc, setting, ranges, body, around, &mut made)?;
    under_all(alloc, binder, made, term)
}

/// The body inside a binder for each range, and behind what was made before what stands at the ranges, from the outermost on.
#[cycle(lowering)]
fn inside(
    alloc: Global,
    setting: &Setting,
    ranges: &[Range<'_>],
    body: Body<'_>,
    around: &mut Around,
    made: &mut MadeRanges,
) -> Result<Term, AllocError>
    ensures term { IfOk result (λ t. step.Binds setting.now ranges.now body.entry around.old made.old made.new t) }
    ensures same { OnOk result (around.new ≡ around.old) }
{
    let count = around.bound.len();
    let depth = around.depth;
    for range in ranges {
        made_in(alloc, setting, range, around, made)?;
    }
    let term = body_at(alloc, setting, body, around)?;
    around.leave(count, depth);
    Ok(term)
}

/// What stands at a range goes to the end of what was made, and its binder is entered.
#[cycle(lowering)]
fn made_in(
    alloc: Global,
    setting: &Setting,
    range: &Range<'_>,
    around: &mut Around,
    made: &mut MadeRanges,
) -> Result<(), AllocError>
    ensures made { OnOk result (made.new ≡ made.old ++ step.made_at setting.now around.old range.now ∷ []) }
    ensures inside { OnOk result (around.new ≡ spec.inside around.old (step.leaves_in range.now)) }
{
    let at = made_at(alloc, setting, range, around)?;
    made.push(at)?;
    enter(alloc, range, around)
}

/// What stands at a range, outside of its own binder.
#[cycle(lowering)]
fn made_at(
    alloc: Global,
    setting: &Setting,
    range: &Range<'_>,
    around: &mut Around,
) -> Result<Made, AllocError>
    ensures made { IfOk result (λ m. m ≡ step.made_at setting.now around.old range.now) }
    ensures same { OnOk result (around.new ≡ around.old) }
{
    match range {
        Range::Over(_, set) => {
            let set = term_at(alloc, setting, *set, around)?;
            Ok(Made::Over(set))
        }
        Range::All(number) => {
            let ty = setting.range_at(alloc, *number)?;
            Ok(Made::All(ty))
        }
    }
}

/// The term of a body inside its binders.
#[cycle(lowering)]
fn body_at(
    alloc: Global,
    setting: &Setting,
    body: Body<'_>,
    around: &mut Around,
) -> Result<Term, AllocError>
    ensures term { IfOk result (λ t. t ≡ step.body_term setting.now body.entry around.old) }
    ensures same { OnOk result (around.new ≡ around.old) }
{
    match body {
        Body::Predicate(p) => term_at(alloc, setting, p, around),
        Body::Members(p, e) => {
            let p = term_at(alloc, setting, p, around)?;
            let e = term_at(alloc, setting, e, around)?;
            members(alloc, p, e)
        }
        Body::Pairs(bound, first, p, e) => {
            let p = term_at(alloc, setting, p, around)?;
            let set = pairs_at(alloc, setting, bound, first, e, around)?;
            guarded(alloc, p, set)
        }
        Body::Sets(p, e) => {
            let p = term_at(alloc, setting, p, around)?;
            let e = term_at(alloc, setting, e, around)?;
            guarded(alloc, p, e)
        }
    }
}

/// The set of a pattern, whose first identifier has a number, paired with an expression.
#[cycle(lowering)]
fn pairs_at(
    alloc: Global,
    setting: &Setting,
    bound: &Bound,
    first: u32,
    value: &Resolved,
    around: &mut Around,
) -> Result<Term, AllocError>
    ensures term { IfOk result (λ t. t ≡ built.extension (built.pair (spec.pattern_term setting.now bound.now first around.old) ((spec.lowered setting.now value.now).term around.old))) }
    ensures same { OnOk result (around.new ≡ around.old) }
{
    let value = term_at(alloc, setting, value, around)?;
    paired_set(alloc, setting, around, bound, first, value)
}

/// The set of a pattern, whose first identifier has a number, paired with this term.
fn paired_set(
    alloc: Global,
    setting: &Setting,
    around: &Around,
    bound: &Bound,
    first: u32,
    value: Term,
) -> Result<Term, AllocError>
    ensures { IfOk result (λ t. t ≡ built.extension (built.pair (spec.pattern_term setting.now bound.now first around.now) value)) }
{
    let pattern = pattern_term(alloc, setting, around, bound, first)?;
    let pair = maplet(alloc, pattern, value)?;
    extension(alloc, pair)
}
