//! What the units of a text ask.
ghost use Rattle.std.specs.Prelude.{◌≡◌, ◌++◌, ◌↔◌, IsTrue, map, IfOk, OnOk};
ghost use Rattle.std.specs.List.{list_all, list_any};
ghost use Rattle.occ_store.specs.Stores.{HaveIntegers};
ghost use Rattle.eb_value.specs.Types.{integer};
ghost use Rattle.cbc_query.specs.Parts.{part_constants};
ghost use Rattle.cbc_query.specs.Problems.{choice_of, choices_of};
ghost use Rattle.cbc_query.specs.Settings.{type_in};
ghost use Rattle.model_text.specs.Asking as spec;

use crate::asked::Wanted;
use eb_infer::Typing;
use eb_model::{EbModel, ModelPart};
use eb_syntax::{EbUnit, Query};
use eb_value::{EbType, same_type};
use std::alloc::{AllocError, Global};

/// A text has no more queries.
const MOST_QUERIES: usize = 1000;

/// Adds queries.
fn push_queries<'a>(all: &mut Vec<&'a Query>, queries: &'a [Query]) -> Result<(), AllocError>
    ensures { OnOk result (map (λ q. q.now) all.new.items ≡ map (λ q. q.now) all.old.items ++ queries.now) }
{
    for query in queries {
        all.push(query)?;
    }
    Ok(())
}

/// Adds the queries of a unit.
fn push_unit<'a>(all: &mut Vec<&'a Query>, unit: &'a EbUnit) -> Result<(), AllocError>
    ensures { OnOk result (map (λ q. q.now) all.new.items ≡ map (λ q. q.now) all.old.items ++ spec.unit_queries unit.now) }
{
    match unit {
        EbUnit::Context(_) | EbUnit::Machine(_) | EbUnit::Scope(_) => Ok(()),
        EbUnit::Queries(queries) => push_queries(all, queries.as_slice()),
    }
}

/// The queries of a text, in its order.
pub(crate) fn queries_of(alloc: Global, units: &[EbUnit]) -> Result<Vec<&Query>, AllocError>
    ensures { IfOk result (λ qs. map (λ q. q.now) qs.items ≡ spec.queries units.now) }
{
    let mut all = Vec::new(alloc);
    for unit in units {
        push_unit(&mut all, unit)?;
    }
    Ok(all)
}

fn asks_axioms(query: &Query) -> bool
    ensures { result ≡ spec.asks_axioms query.now }
{
    match query {
        Query::Axioms => true,
        _ => false,
    }
}

/// Whether some query is `axioms`.
pub(crate) fn some_axioms(queries: &[&Query]) -> bool
    ensures { result ≡ list_any spec.asks_axioms (map (λ q. q.now) queries.now) }
{
    for query in queries {
        if asks_axioms(query) {
            return true;
        }
    }
    false
}

/// Whether each query is `axioms`.
pub(crate) fn all_axioms(queries: &[&Query]) -> bool
    ensures { result ≡ list_all spec.asks_axioms (map (λ q. q.now) queries.now) }
{
    for query in queries {
        if !asks_axioms(query) {
            return false;
        }
    }
    true
}

/// Whether so many queries are wanted.
pub(crate) fn is_wanted(wanted: Wanted, count: usize) -> bool
    ensures { result ≡ spec.is_wanted wanted count }
{
    match wanted {
        Wanted::Any => count <= MOST_QUERIES,
        Wanted::One => count == 1,
    }
}

fn is_machine(unit: &EbUnit) -> bool
    ensures { result ≡ spec.is_machine unit.now }
{
    match unit {
        EbUnit::Context(_) | EbUnit::Scope(_) | EbUnit::Queries(_) => false,
        EbUnit::Machine(_) => true,
    }
}

/// Whether there is a machine.
pub(crate) fn has_machine(units: &[EbUnit]) -> bool
    ensures { result ≡ list_any spec.is_machine units.now }
{
    for unit in units {
        if is_machine(unit) {
            return true;
        }
    }
    false
}

/// Whether an identifier is an integer.
fn is_integer(alloc: Global, types: &Typing, number: u32) -> Result<bool, AllocError>
    ensures { IfOk result (λ b. IsTrue b ↔ (type_in types.now number ≡ integer)) }
{
    match types.type_of(alloc, number)? {
        Some(ty) => Ok(same_type(&ty, &EbType::integer())),
        None => Ok(false),
    }
}

/// Whether a part that is a constant is an integer.
fn is_integer_part(alloc: Global, types: &Typing, part: &ModelPart) -> Result<bool, AllocError>
    ensures { IfOk result (λ b. IsTrue b ↔ HaveIntegers (map (choice_of types.now) (part_constants part.now))) }
{
    match part {
        ModelPart::Constant(constant) => is_integer(alloc, types, constant.number),
        ModelPart::Carrier(_, _)
        | ModelPart::Variable(_)
        | ModelPart::Axiom(_)
        | ModelPart::Invariant(_)
        | ModelPart::Event(_) => Ok(true),
    }
}

/// Whether each constant is an integer.
pub(crate) fn have_integers(
    alloc: Global,
    model: &EbModel,
    types: &Typing,
) -> Result<bool, AllocError>
    ensures { IfOk result (λ b. IsTrue b ↔ HaveIntegers (choices_of model.now types.now)) }
{
    for part in model.parts.as_slice() {
        if !is_integer_part(alloc, types, part)? {
            return Ok(false);
        }
    }
    Ok(true)
}
