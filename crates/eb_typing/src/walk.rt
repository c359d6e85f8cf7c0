//! The equations of formulas, part by part.
ghost use Rattle.std.specs.Prelude.{◌≡◌, ℕ, IfOk, OnOk, map};
ghost use Rattle.type_table.specs.declared.pattern.Letter.TheVariants.{A};
ghost use Rattle.type_table.specs.declared.pattern.Pattern.TheVariants as p;
ghost use Rattle.type_table.specs.Rows.{unary};
ghost use Rattle.eb_typing.specs.steps.Generating as spec;
ghost use Rattle.eb_typing.specs.Numbering as numbers;

use crate::generated::{Found, Generated};
use crate::tuple::{check, tuple};
use eb_resolved::{Resolved, ResolvedNode};
use eb_syntax::{Binder, Bound, Constant};
use sqlite_items::{Boxed, Items};
use std::alloc::{AllocError, Global};
use type_table::{
    BinaryRow, Letter, Pattern, UnaryRow, builder_row, call_row, comprehension_row,
    constant_pattern, gathering_row, inverse_row, lambda_row, operator_row, prefix_row,
    quantifier_row,
};

/// The number is one of the typing.
pub(crate) fn typed(asked: u32, number: u32, out: &mut Generated) -> Result<Found, AllocError>
    ensures found { IfOk result (λ found. found ≡ (spec.gen asked (numbers.typed number) out.old).0) }
    ensures made { OnOk result (out.new ≡ (spec.gen asked (numbers.typed number) out.old).1) }
{
    check(asked, number, out)?;
    Ok(Found::Expression(number))
}

/// What has no type at all.
pub(crate) fn unknown(out: &mut Generated) -> Result<Found, AllocError>
    ensures found { IfOk result (λ found. found ≡ (spec.gen 0 numbers.unknown out.old).0) }
    ensures made { OnOk result (out.new ≡ (spec.gen 0 numbers.unknown out.old).1) }
{
    out.contradict(0)?;
    Ok(Found::Expression(0))
}

/// A constant. A mark has a type by its number, and none without one.
fn plain(constant: Constant, out: &mut Generated) -> Result<Found, AllocError>
    ensures found { (asked : ℕ) → IfOk result (λ found. found ≡ (spec.gen asked (numbers.plain constant) out.old).0) }
    ensures made { (asked : ℕ) → OnOk result (out.new ≡ (spec.gen asked (numbers.plain constant) out.old).1) }
{
    match constant {
        Constant::Truth
        | Constant::Falsity
        | Constant::Integers
        | Constant::Naturals
        | Constant::PositiveNaturals
        | Constant::Booleans
        | Constant::TrueValue
        | Constant::FalseValue => out.leaf(constant_pattern(constant)),
        Constant::Identity
        | Constant::FirstProjection
        | Constant::SecondProjection
        | Constant::EmptySet => unknown(out),
    }
}

fn marked(
    asked: u32,
    pattern: Pattern,
    number: u32,
    out: &mut Generated,
) -> Result<Found, AllocError>
    ensures found { IfOk result (λ found. found ≡ (spec.gen asked (numbers.marked pattern number) out.old).0) }
    ensures made { OnOk result (out.new ≡ (spec.gen asked (numbers.marked pattern number) out.old).1) }
{
    let part = typed(asked, number, out)?;
    let row = UnaryRow {
        part: pattern,
        whole: pattern,
    };
    out.unary(row, part)
}

/// What a `%` binds, whose first identifier has this number.
fn bound_pattern(
    alloc: Global,
    asked: u32,
    bound: &Bound,
    first: u32,
    out: &mut Generated,
) -> Result<Found, AllocError>
    ensures found { IfOk result (λ found. found ≡ (spec.gen asked (numbers.tuple_of bound.now first) out.old).0) }
    ensures made { OnOk result (out.new ≡ (spec.gen asked (numbers.tuple_of bound.now first) out.old).1) }
{
    match bound {
        Bound::Pattern(tokens) => { tuple(alloc, asked, tokens.as_slice(), first, out) }
        Bound::Identifiers(_) => unknown(out),
    }
}

/// Members between braces.
fn extension_row() -> UnaryRow
    ensures { result ≡ unary (p.Type A) (p.Set A) }
{
    UnaryRow {
        part: Pattern::Type(Letter::A),
        whole: Pattern::Set(Letter::A),
    }
}

/// Sets of a partition.
fn partition_row() -> UnaryRow
    ensures { result ≡ unary (p.Set A) p.Predicate }
{
    UnaryRow {
        part: Pattern::Set(Letter::A),
        whole: Pattern::Predicate,
    }
}

/// The equations of the formula, and what it is.
#[cycle(walking)]
pub(crate) fn walk(
    alloc: Global,
    asked: u32,
    formula: &Resolved,
    out: &mut Generated,
) -> Result<Found, AllocError>
    ensures found { IfOk result (λ found. found ≡ (spec.gen asked (numbers.numbered formula.now) out.old).0) }
    ensures made { OnOk result (out.new ≡ (spec.gen asked (numbers.numbered formula.now) out.old).1) }
{
    match &formula.node {
        ResolvedNode::Number(_) => out.leaf(Pattern::Integer),
        ResolvedNode::Identifier(number) | ResolvedNode::Primed(number) => {
            typed(asked, *number, out)
        }
        ResolvedNode::Unknown(_, _) => unknown(out),
        ResolvedNode::Constant(constant) => plain(*constant, out),
        ResolvedNode::Mark(constant, number) => {
            marked(asked, constant_pattern(*constant), *number, out)
        }
        ResolvedNode::Prefix(prefix, part) => one(alloc, asked, prefix_row(*prefix), part, out),
        ResolvedNode::Call(call, part) => one(alloc, asked, call_row(*call), part, out),
        ResolvedNode::Inverse(part) => one(alloc, asked, inverse_row(), part, out),
        ResolvedNode::Quantifier(_, _, part) => one(alloc, asked, quantifier_row(), part, out),
        ResolvedNode::Operator(operator, left, right) => {
            two(alloc, asked, operator_row(*operator), left, right, out)
        }
        ResolvedNode::Binder(binder, bound, first, left, right) => {
            bound_by(alloc, asked, *binder, bound, *first, left, right, out)
        }
        ResolvedNode::Comprehension(_, left, right) => {
            two(alloc, asked, comprehension_row(), left, right, out)
        }
        ResolvedNode::Builder(_, left, right) => two(alloc, asked, builder_row(), left, right, out),
        ResolvedNode::Extension(members) => {
            all(alloc, asked, extension_row(), members.as_slice(), out)
        }
        ResolvedNode::Partition(members) => {
            all(alloc, asked, partition_row(), members.as_slice(), out)
        }
    }
}

/// A formula with one part.
#[cycle(walking)]
fn one(
    alloc: Global,
    asked: u32,
    row: UnaryRow,
    part: &Boxed<Resolved>,
    out: &mut Generated,
) -> Result<Found, AllocError>
    ensures found { IfOk result (λ found. found ≡ (spec.gen asked (numbers.of_one row (numbers.numbered part.now)) out.old).0) }
    ensures made { OnOk result (out.new ≡ (spec.gen asked (numbers.of_one row (numbers.numbered part.now)) out.old).1) }
{
    let part = walk(alloc, asked, part.get(), out)?;
    out.unary(row, part)
}

/// A formula with two parts.
#[cycle(walking)]
fn two(
    alloc: Global,
    asked: u32,
    row: BinaryRow,
    left: &Boxed<Resolved>,
    right: &Boxed<Resolved>,
    out: &mut Generated,
) -> Result<Found, AllocError>
    ensures found { IfOk result (λ found. found ≡ (spec.gen asked (numbers.of_two row (numbers.numbered left.now) (numbers.numbered right.now)) out.old).0) }
    ensures made { OnOk result (out.new ≡ (spec.gen asked (numbers.of_two row (numbers.numbered left.now) (numbers.numbered right.now)) out.old).1) }
{
    let left = walk(alloc, asked, left.get(), out)?;
    let right = walk(alloc, asked, right.get(), out)?;
    out.binary(row, left, right)
}

/// `%`, `UNION` and `INTER`: what is bound, the condition and the value.
#[cycle(walking)]
fn bound_by(
    alloc: Global,
    asked: u32,
    binder: Binder,
    bound: &Bound,
    first: u32,
    condition: &Boxed<Resolved>,
    value: &Boxed<Resolved>,
    out: &mut Generated,
) -> Result<Found, AllocError>
    ensures found { IfOk result (λ found. found ≡ (spec.gen asked (numbers.bound_made binder bound.now first (numbers.numbered condition.now) (numbers.numbered value.now)) out.old).0) }
    ensures made { OnOk result (out.new ≡ (spec.gen asked (numbers.bound_made binder bound.now first (numbers.numbered condition.now) (numbers.numbered value.now)) out.old).1) }
{
    match binder {
        Binder::Lambda => {
            let pattern = bound_pattern(alloc, asked, bound, first, out)?;
            let condition = walk(alloc, asked, condition.get(), out)?;
            let value = walk(alloc, asked, value.get(), out)?;
            out.ternary(lambda_row(), pattern, condition, value)
        }
        Binder::Union | Binder::Intersection => {
            two(alloc, asked, gathering_row(), condition, value, out)
        }
    }
}

/// What each of the formulas is, in order.
#[cycle(walking)]
fn each(
    alloc: Global,
    asked: u32,
    members: &[Resolved],
    out: &mut Generated,
) -> Result<Items<Found>, AllocError>
    ensures found { IfOk result (λ found. found ≡ (spec.gens asked (numbers.parts_of (map numbers.numbered members.now)) out.old).0) }
    ensures made { OnOk result (out.new ≡ (spec.gens asked (numbers.parts_of (map numbers.numbered members.now)) out.old).1) }
{
    let mut parts = Items::new(alloc);
    for member in members {
        let part = walk(alloc, asked, member, out)?;
        parts.push(part)?;
    }
    Ok(parts)
}

/// The formulas, each as the row says of a part, and what is made of them.
#[cycle(walking)]
fn all(
    alloc: Global,
    asked: u32,
    row: UnaryRow,
    members: &[Resolved],
    out: &mut Generated,
) -> Result<Found, AllocError>
    ensures found { IfOk result (λ found. found ≡ (spec.gen asked (numbers.all row.part row.whole (map numbers.numbered members.now)) out.old).0) }
    ensures made { OnOk result (out.new ≡ (spec.gen asked (numbers.all row.part row.whole (map numbers.numbered members.now)) out.old).1) }
{
    let parts = each(alloc, asked, members, out)?;
    let found = out.all(row.part, row.whole, parts.as_slice())?;
    Ok(found)
}
