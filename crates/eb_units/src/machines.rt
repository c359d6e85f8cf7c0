//! Machines.
ghost use Rattle.std.specs.Prelude.{◌<◌, ◌^◌, length, drop, IfErr};
ghost use Rattle.eb_parser.specs.steps.Finding.{Finds};
ghost use Rattle.eb_units.specs.steps.Descending.{IsPlaced};
ghost use Rattle.eb_units.specs.steps.Descending as spec;

use super::front::{at_label, at_sign, formula_at, label_at, name_at, next, place_at, sign_at};
use super::lists::{names_at, names_behind_at};
use super::many::{Listed, many};
use eb_lexer::Tokens;
use eb_parser::{FormulaKind, ParseFault};
use eb_signs::Sign;
use eb_syntax::{Event, LabelledPredicate, Machine, MachineClause, Refinement};
use std::alloc::Global;

#[tactic(auto, unfolding(crate::specs::steps::Descending::variables_at))]
fn variables_at(alloc: Global, tokens: &Tokens, at: u32) -> Result<(MachineClause, u32), ParseFault>
    requires { length tokens.now < 2 ^ 32 }
    ensures exact { Finds tokens.now result (spec.variables_at (spec.room tokens.now) (drop at tokens.now)) }
    ensures placed { IfErr result (IsPlaced tokens.now) }
{
    let (names, rest) = names_at(alloc, tokens, at)?;
    Ok((MachineClause::Variables(names), rest))
}

#[tactic(auto, unfolding(crate::specs::steps::Descending::invariants_at))]
fn invariants_at(
    alloc: Global,
    tokens: &Tokens,
    at: u32,
) -> Result<(MachineClause, u32), ParseFault>
    requires { length tokens.now < 2 ^ 32 }
    ensures exact { Finds tokens.now result (spec.invariants_at 201 (spec.room tokens.now) (drop at tokens.now)) }
    ensures placed { IfErr result (IsPlaced tokens.now) }
{
    let (invariants, rest) = many::<LabelledPredicate>(alloc, tokens, at)?;
    Ok((MachineClause::Invariants(invariants), rest))
}

#[tactic(auto, unfolding(crate::specs::steps::Descending::labelled_variant_at))]
fn labelled_variant_at(
    alloc: Global,
    tokens: &Tokens,
    at: u32,
) -> Result<(MachineClause, u32), ParseFault>
    requires { length tokens.now < 2 ^ 32 }
    ensures exact { Finds tokens.now result (spec.labelled_variant_at 201 (drop at tokens.now)) }
    ensures placed { IfErr result (IsPlaced tokens.now) }
{
    let (label, rest) = label_at(alloc, tokens, at)?;
    let (value, rest) = formula_at(alloc, tokens, FormulaKind::Expr, rest)?;
    Ok((MachineClause::Variant(Some(label), value), rest))
}

#[tactic(auto, unfolding(crate::specs::steps::Descending::variant_at))]
fn variant_at(alloc: Global, tokens: &Tokens, at: u32) -> Result<(MachineClause, u32), ParseFault>
    requires { length tokens.now < 2 ^ 32 }
    ensures exact { Finds tokens.now result (spec.variant_at 201 (drop at tokens.now)) }
    ensures placed { IfErr result (IsPlaced tokens.now) }
{
    if at_label(tokens, at) {
        return labelled_variant_at(alloc, tokens, at);
    }
    let (value, rest) = formula_at(alloc, tokens, FormulaKind::Expr, at)?;
    Ok((MachineClause::Variant(None, value), rest))
}

#[tactic(auto, unfolding(crate::specs::steps::Descending::events_at))]
fn events_at(alloc: Global, tokens: &Tokens, at: u32) -> Result<(MachineClause, u32), ParseFault>
    requires { length tokens.now < 2 ^ 32 }
    ensures exact { Finds tokens.now result (spec.events_at 201 (spec.room tokens.now) (drop at tokens.now)) }
    ensures placed { IfErr result (IsPlaced tokens.now) }
{
    let (_, rest) = sign_at(tokens, Sign::Events, at)?;
    let (events, rest) = many::<Event>(alloc, tokens, rest)?;
    Ok((MachineClause::Events(events), rest))
}

/// The clause of a machine here.
impl Listed for MachineClause {
    ghost begins = { spec.opens_machine_part };

    ghost reads = { λ ts. spec.machine_part_at 201 (spec.room ts) };

    #[tactic(auto, unfolding(crate::specs::steps::Descending::opens_machine_part))]
    fn is_here(tokens: &Tokens, at: u32) -> bool {
        (at_sign(tokens, Sign::Variables, at) || at_sign(tokens, Sign::Invariants, at))
            || (at_sign(tokens, Sign::Variant, at) || at_sign(tokens, Sign::Events, at))
    }

    #[tactic(auto, unfolding(crate::specs::steps::Descending::machine_part_at))]
    fn take(alloc: Global, tokens: &Tokens, at: u32) -> Result<(MachineClause, u32), ParseFault> {
        if at_sign(tokens, Sign::Variables, at) {
            variables_at(alloc, tokens, next(tokens, at))
        } else if at_sign(tokens, Sign::Invariants, at) {
            invariants_at(alloc, tokens, next(tokens, at))
        } else if at_sign(tokens, Sign::Variant, at) {
            variant_at(alloc, tokens, next(tokens, at))
        } else {
            events_at(alloc, tokens, at)
        }
    }
}

#[tactic(auto, unfolding(crate::specs::steps::Descending::refinement_at))]
fn refinement_at(
    alloc: Global,
    tokens: &Tokens,
    at: u32,
) -> Result<(Option<Refinement>, u32), ParseFault>
    requires { length tokens.now < 2 ^ 32 }
    ensures exact { Finds tokens.now result (spec.refinement_at (drop at tokens.now)) }
    ensures placed { IfErr result (IsPlaced tokens.now) }
{
    if !at_sign(tokens, Sign::Refines, at) {
        return Ok((None, at));
    }
    let (machine, rest) = name_at(alloc, tokens, next(tokens, at))?;
    let place = place_at(tokens, at);
    Ok((Some(Refinement { place, machine }), rest))
}

/// The machine here.
#[tactic(auto, unfolding(crate::specs::steps::Descending::machine_at))]
pub(crate) fn machine_at(
    alloc: Global,
    tokens: &Tokens,
    at: u32,
) -> Result<(Machine, u32), ParseFault>
    requires { length tokens.now < 2 ^ 32 }
    ensures exact { Finds tokens.now result (spec.machine_at 201 (spec.room tokens.now) (drop at tokens.now)) }
    ensures placed { IfErr result (IsPlaced tokens.now) }
{
    let (place, rest) = sign_at(tokens, Sign::Machine, at)?;
    let (name, rest) = name_at(alloc, tokens, rest)?;
    let (refines, rest) = refinement_at(alloc, tokens, rest)?;
    let (sees, rest) = names_behind_at(alloc, tokens, Sign::Sees, rest)?;
    let (clauses, rest) = many::<MachineClause>(alloc, tokens, rest)?;
    let (_, rest) = sign_at(tokens, Sign::End, rest)?;
    Ok((
        Machine {
            place,
            name,
            refines,
            sees,
            clauses,
        },
        rest,
    ))
}
