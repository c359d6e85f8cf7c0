//! The type of a term, by the table of types.
ghost use Rattle.std.specs.Prelude.{◌≡◌, IfOk, Some, None, unwrap_or};
ghost use Rattle.std.specs.Option.{option_copied};
ghost use Rattle.eb_value.specs.Types as types;
ghost use Rattle.type_table.specs.Rows as rows;
ghost use Rattle.type_table.specs.declared.pattern.Letter.TheVariants as letter;
ghost use Rattle.term_types.specs.Types as spec;
ghost use Rattle.term_types.specs.steps.Letters as step;

use eb_term::{Binary, Binder, Head, Many, Side, Term, Unary};
use eb_value::EbType;
use narrow_terms::{element_of, part_of};
use std::alloc::{AllocError, Global};
use type_table::{
    BinaryRow, Letter, Pattern, UnaryRow, call_row, inverse_row, operator_row, prefix_row,
};

/// The type of an expression, by those of its literals, references and variables; none of a predicate. The only error is want
/// of memory.
#[cycle(typing)]
pub fn type_of(alloc: Global, term: &Term) -> Result<Option<EbType>, AllocError>
    ensures { IfOk result (λ t. t ≡ spec.type_of term.now) }
{
    match &term.head {
        Head::Truth(_) => Ok(None),
        Head::Literal(_, ty) | Head::Reference(_, ty) | Head::Variable(_, _, ty) => {
            Ok(Some(ty.get().copied(alloc)?))
        }
        Head::Infinite(_) => Ok(Some(EbType::power(alloc, EbType::integer())?)),
        Head::Identity(ty) => Ok(Some(relation(alloc, ty.get(), ty.get())?)),
        Head::Projection(side, first, second) => {
            Ok(Some(projection(alloc, *side, first.get(), second.get())?))
        }
        Head::Unary(operator, part) => unary_type(alloc, part.get(), *operator),
        Head::Binary(binary, left, right) => match binary {
            Binary::Operator(operator) => {
                let left = type_of(alloc, left.get())?;
                let right = type_of(alloc, right.get())?;
                let row = operator_row(*operator);
                whole_type(
                    alloc,
                    row.whole,
                    binary_letters(row, left.as_ref(), right.as_ref()),
                )
            }
            Binary::Both => Ok(None),
            Binary::If => type_of(alloc, right.get()),
        },
        Head::Many(many, parts) => match many {
            Many::Extension => set_of_first(alloc, parts.as_slice()),
            Many::Partition => Ok(None),
        },
        Head::Over(binder, _, body) | Head::All(binder, _, body) => {
            bound_type(alloc, body.get(), *binder)
        }
    }
}

#[cycle(typing)]
fn unary_type(alloc: Global, part: &Term, operator: Unary) -> Result<Option<EbType>, AllocError>
    ensures { IfOk result (λ t. t ≡ spec.type_by_unary operator (spec.type_of part.now)) }
{
    let part = type_of(alloc, part)?;
    match operator {
        Unary::Prefix(prefix) => row_type(alloc, prefix_row(prefix), part.as_ref()),
        Unary::Call(call) => row_type(alloc, call_row(call), part.as_ref()),
        Unary::Inverse => row_type(alloc, inverse_row(), part.as_ref()),
        Unary::Defined | Unary::Functional => Ok(None),
        Unary::Part(side) => part_copied(alloc, side, part.as_ref()),
    }
}

/// The type of a set, by its first member.
#[cycle(typing)]
fn set_of_first(alloc: Global, parts: &[Term]) -> Result<Option<EbType>, AllocError>
    ensures { IfOk result (λ t. t ≡ step.set_of_first parts.now) }
{
    match parts.first() {
        Some(first) => match type_of(alloc, first)? {
            Some(ty) => Ok(Some(EbType::power(alloc, ty)?)),
            None => Ok(None),
        },
        None => Ok(None),
    }
}

#[cycle(typing)]
fn bound_type(alloc: Global, body: &Term, binder: Binder) -> Result<Option<EbType>, AllocError>
    ensures { IfOk result (λ t. t ≡ spec.type_by_binder binder (spec.type_of body.now)) }
{
    match binder {
        Binder::ForAll | Binder::Exists => Ok(None),
        Binder::Collect => type_of(alloc, body),
    }
}

fn part_copied(
    alloc: Global,
    side: Side,
    pair: Option<&EbType>,
) -> Result<Option<EbType>, AllocError>
    ensures { IfOk result (λ t. t ≡ step.part_of side (option_copied pair.entry)) }
{
    match pair {
        Some(pair) => match part_of(pair, side) {
            Some(part) => Ok(Some(part.copied(alloc)?)),
            None => Ok(None),
        },
        None => Ok(None),
    }
}

fn relation(alloc: Global, from: &EbType, to: &EbType) -> Result<EbType, AllocError>
    ensures { IfOk result (λ t. t ≡ rows.relation from.now to.now) }
{
    let from = from.copied(alloc)?;
    let to = to.copied(alloc)?;
    related(alloc, from, to)
}

fn related(alloc: Global, from: EbType, to: EbType) -> Result<EbType, AllocError>
    ensures { IfOk result (λ t. t ≡ rows.relation from to) }
{
    let pairs = EbType::product(alloc, from, to)?;
    EbType::power(alloc, pairs)
}

fn projection(
    alloc: Global,
    side: Side,
    first: &EbType,
    second: &EbType,
) -> Result<EbType, AllocError>
    ensures { IfOk result (λ t. t ≡ step.projection side first.now second.now) }
{
    let pair = product(alloc, first, second)?;
    match side {
        Side::First => {
            let to = first.copied(alloc)?;
            related(alloc, pair, to)
        }
        Side::Second => {
            let to = second.copied(alloc)?;
            related(alloc, pair, to)
        }
    }
}

fn product(alloc: Global, first: &EbType, second: &EbType) -> Result<EbType, AllocError>
    ensures { IfOk result (λ t. t ≡ types.product first.now second.now) }
{
    let first = first.copied(alloc)?;
    let second = second.copied(alloc)?;
    EbType::product(alloc, first, second)
}

/// What the letters of a row stand for, BOOL where that is none.
#[derive(Clone, Copy)]
struct Letters<'a> {
    a: Option<&'a EbType>,
    b: Option<&'a EbType>,
    c: Option<&'a EbType>,
    d: Option<&'a EbType>,
}

fn row_type(
    alloc: Global,
    row: UnaryRow,
    part: Option<&EbType>,
) -> Result<Option<EbType>, AllocError>
    ensures { IfOk result (λ t. t ≡ spec.type_by_unary_row row (option_copied part.entry)) }
{
    let letters = Letters {
        a: letter_of(Letter::A, row.part, part),
        b: letter_of(Letter::B, row.part, part),
        c: letter_of(Letter::C, row.part, part),
        d: letter_of(Letter::D, row.part, part),
    };
    whole_type(alloc, row.whole, letters)
}

fn binary_letters<'a>(
    row: BinaryRow,
    left: Option<&'a EbType>,
    right: Option<&'a EbType>,
) -> Letters<'a>
    ensures { step.choice_of result ≡ spec.choice_by (λ l. spec.or_else (spec.letter_of l row.left (option_copied left.entry)) (spec.letter_of l row.right (option_copied right.entry))) }
{
    Letters {
        a: letter_of_two(Letter::A, row, left, right),
        b: letter_of_two(Letter::B, row, left, right),
        c: letter_of_two(Letter::C, row, left, right),
        d: letter_of_two(Letter::D, row, left, right),
    }
}

fn letter_of_two<'a>(
    letter: Letter,
    row: BinaryRow,
    left: Option<&'a EbType>,
    right: Option<&'a EbType>,
) -> Option<&'a EbType>
    ensures { option_copied result ≡ spec.or_else (spec.letter_of letter row.left (option_copied left.entry)) (spec.letter_of letter row.right (option_copied right.entry)) }
{
    match letter_of(letter, row.left, left) {
        Some(ty) => Some(ty),
        None => letter_of(letter, row.right, right),
    }
}

fn letter_of<'a>(letter: Letter, pattern: Pattern, ty: Option<&'a EbType>) -> Option<&'a EbType>
    ensures { option_copied result ≡ spec.letter_of letter pattern (option_copied ty.entry) }
{
    match ty {
        Some(ty) => letter_in(letter, pattern, ty),
        None => None,
    }
}

/// What a letter stands for where a pattern is this type.
fn letter_in<'a>(letter: Letter, pattern: Pattern, ty: &'a EbType) -> Option<&'a EbType>
    ensures { option_copied result ≡ spec.letter_in letter pattern ty.now }
{
    match pattern {
        Pattern::Type(x) => { if letter == x { Some(ty) } else { None } }
        Pattern::Pair(x, y) => letter_in_pair(letter, x, y, Some(ty)),
        Pattern::Set(x) => { if letter == x { element_of(ty) } else { None } }
        Pattern::Sets(x) => {
            if letter == x {
                element_of(element_of(ty)?)
            } else {
                None
            }
        }
        Pattern::Relation(x, y) => letter_in_pair(letter, x, y, element_of(ty)),
        Pattern::Relations(x, y) => letter_in_pair(letter, x, y, element_of(element_of(ty)?)),
        Pattern::Predicate
        | Pattern::Integer
        | Pattern::Boolean
        | Pattern::Integers
        | Pattern::Booleans
        | Pattern::Atoms(_)
        | Pattern::ToPairs
        | Pattern::BetweenPairs
        | Pattern::ToFirst
        | Pattern::ToSecond => None,
    }
}

fn letter_in_pair<'a>(
    letter: Letter,
    x: Letter,
    y: Letter,
    pair: Option<&'a EbType>,
) -> Option<&'a EbType>
    ensures { option_copied result ≡ step.letter_in_pair letter x y (option_copied pair.entry) }
{
    if letter == x {
        part_of(pair?, Side::First)
    } else if letter == y {
        part_of(pair?, Side::Second)
    } else {
        None
    }
}

fn chosen(alloc: Global, letters: Letters<'_>, letter: Letter) -> Result<EbType, AllocError>
    ensures { IfOk result (λ t. t ≡ rows.chosen (step.choice_of letters.entry) letter) }
{
    let ty = match letter {
        Letter::A => letters.a,
        Letter::B => letters.b,
        Letter::C => letters.c,
        Letter::D => letters.d,
    };
    match ty {
        Some(ty) => ty.copied(alloc),
        None => Ok(EbType::boolean()),
    }
}

fn chosen_pair(
    alloc: Global,
    letters: Letters<'_>,
    x: Letter,
    y: Letter,
) -> Result<EbType, AllocError>
    ensures { IfOk result (λ t. t ≡ types.product (rows.chosen (step.choice_of letters.entry) x) (rows.chosen (step.choice_of letters.entry) y)) }
{
    let first = chosen(alloc, letters, x)?;
    let second = chosen(alloc, letters, y)?;
    EbType::product(alloc, first, second)
}

/// What a pattern says.
fn whole_type(
    alloc: Global,
    pattern: Pattern,
    letters: Letters<'_>,
) -> Result<Option<EbType>, AllocError>
    ensures { IfOk result (λ t. t ≡ spec.type_in (rows.sort (step.choice_of letters.entry) pattern)) }
{
    match pattern {
        Pattern::Predicate => Ok(None),
        _ => Ok(Some(pattern_type(alloc, pattern, letters)?)),
    }
}

fn pattern_type(alloc: Global, pattern: Pattern, letters: Letters<'_>) -> Result<EbType, AllocError>
    ensures { IfOk result (λ t. t ≡ step.type_by_pattern (step.choice_of letters.entry) pattern) }
{
    match pattern {
        Pattern::Predicate | Pattern::Boolean => Ok(EbType::boolean()),
        Pattern::Integer => Ok(EbType::integer()),
        Pattern::Integers => EbType::power(alloc, EbType::integer()),
        Pattern::Booleans => EbType::power(alloc, EbType::boolean()),
        Pattern::Atoms(place) => EbType::power(alloc, EbType::carrier(place)),
        Pattern::Type(x) => chosen(alloc, letters, x),
        Pattern::Pair(x, y) => chosen_pair(alloc, letters, x, y),
        Pattern::Set(x) => EbType::power(alloc, chosen(alloc, letters, x)?),
        Pattern::Sets(x) => powers(alloc, chosen(alloc, letters, x)?),
        Pattern::Relation(x, y) => EbType::power(alloc, chosen_pair(alloc, letters, x, y)?),
        Pattern::Relations(x, y) => powers(alloc, chosen_pair(alloc, letters, x, y)?),
        Pattern::ToPairs => {
            let from = chosen(alloc, letters, Letter::A)?;
            let to = chosen_pair(alloc, letters, Letter::B, Letter::C)?;
            related(alloc, from, to)
        }
        Pattern::BetweenPairs => {
            let from = chosen_pair(alloc, letters, Letter::A, Letter::B)?;
            let to = chosen_pair(alloc, letters, Letter::C, Letter::D)?;
            related(alloc, from, to)
        }
        Pattern::ToFirst => to_part(alloc, letters, Letter::A),
        Pattern::ToSecond => to_part(alloc, letters, Letter::B),
    }
}

fn to_part(alloc: Global, letters: Letters<'_>, part: Letter) -> Result<EbType, AllocError>
    ensures { IfOk result (λ t. t ≡ rows.relation (types.product (rows.chosen (step.choice_of letters.entry) letter.A) (rows.chosen (step.choice_of letters.entry) letter.B)) (rows.chosen (step.choice_of letters.entry) part)) }
{
    let from = chosen_pair(alloc, letters, Letter::A, Letter::B)?;
    let to = chosen(alloc, letters, part)?;
    related(alloc, from, to)
}

/// The type of sets of sets.
fn powers(alloc: Global, ty: EbType) -> Result<EbType, AllocError>
    ensures { IfOk result (λ t. t ≡ types.power (types.power ty)) }
{
    let sets = EbType::power(alloc, ty)?;
    EbType::power(alloc, sets)
}

/// The type of the members of a set, BOOL where it is none. The only error is want of memory.
pub fn element_type(alloc: Global, set: &Term) -> Result<EbType, AllocError>
    ensures { IfOk result (λ t. t ≡ spec.element_type (spec.type_of set.now)) }
{
    let set = type_of(alloc, set)?;
    element_copied(alloc, set.as_ref())
}

fn element_copied(alloc: Global, set: Option<&EbType>) -> Result<EbType, AllocError>
    ensures { IfOk result (λ t. t ≡ spec.element_type (option_copied set.entry)) }
{
    match set {
        Some(set) => match element_of(set) {
            Some(ty) => ty.copied(alloc),
            None => Ok(EbType::boolean()),
        },
        None => Ok(EbType::boolean()),
    }
}

/// The type of an expression, BOOL where it is none. The only error is want of memory.
pub fn type_or_any(alloc: Global, term: &Term) -> Result<EbType, AllocError>
    ensures { IfOk result (λ t. t ≡ spec.type_or_any (spec.type_of term.now)) }
{
    match type_of(alloc, term)? {
        Some(ty) => Ok(ty),
        None => Ok(EbType::boolean()),
    }
}
