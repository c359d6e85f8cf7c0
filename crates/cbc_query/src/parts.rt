//! What a model declares and says, kind by kind. The only error of each function is want of memory.
ghost use Rattle.std.specs.Prelude.{◌≡◌, ◌++◌, ◌<◌, ◌^◌, map, length, IfOk, OnOk};
ghost use Rattle.cbc_query.specs.Parts as spec;
ghost use Rattle.cbc_query.specs.Problems as problem;
ghost use Rattle.cbc_query.specs.Settings as setting;
ghost use Rattle.eb_lowering.specs.Lowering.{term_of as lowered};

use eb_infer::Typing;
use eb_lowering::{Setting, term_of};
use eb_model::{EbModel, ModelPart};
use eb_names::Names;
use eb_term::{Choice, Choices, Terms};
use eb_value::EbType;
use numbered_names::Entry;
use std::alloc::{AllocError, Global};

fn push_carrier(alloc: Global, part: &ModelPart, names: &mut Names) -> Result<(), AllocError>
    ensures { OnOk result (names.new ≡ names.old ++ spec.part_carriers part.now) }
{
    match part {
        ModelPart::Carrier(_, identifier) => {
            names.push(identifier.name.copied(alloc)?)?;
            Ok(())
        }
        ModelPart::Constant(_) => Ok(()),
        ModelPart::Variable(_) => Ok(()),
        ModelPart::Axiom(_) => Ok(()),
        ModelPart::Invariant(_) => Ok(()),
        ModelPart::Event(_) => Ok(()),
    }
}

/// The names of the carrier sets of the model, in the order of the text. The only error is want of memory.
pub fn carriers(alloc: Global, model: &EbModel) -> Result<Names, AllocError>
    ensures { IfOk result (λ names. names ≡ spec.carriers model.now) }
{
    let mut names = Names::new(alloc);
    for part in model.parts.as_slice() {
        push_carrier(alloc, part, &mut names)?;
    }
    Ok(names)
}

/// The type with this number, BOOL where there is none.
pub(crate) fn type_in(alloc: Global, types: &Typing, number: u32) -> Result<EbType, AllocError>
    ensures { IfOk result (λ ty. ty ≡ setting.type_in types.now number) }
{
    match types.type_of(alloc, number)? {
        Some(ty) => Ok(ty),
        None => Ok(EbType::boolean()),
    }
}

fn choice_of(alloc: Global, types: &Typing, identifier: &Entry) -> Result<Choice, AllocError>
    ensures { IfOk result (λ choice. choice ≡ problem.choice_of types.now identifier.now) }
{
    let name = identifier.name.copied(alloc)?;
    let ty = type_in(alloc, types, identifier.number)?;
    Ok(Choice { name, ty })
}

fn push_choice(
    alloc: Global,
    types: &Typing,
    part: &ModelPart,
    choices: &mut Choices,
) -> Result<(), AllocError>
    ensures { OnOk result (choices.new ≡ choices.old ++ map (problem.choice_of types.now) (spec.part_constants part.now)) }
{
    match part {
        ModelPart::Constant(identifier) => {
            choices.push(choice_of(alloc, types, identifier)?)?;
            Ok(())
        }
        ModelPart::Carrier(_, _) => Ok(()),
        ModelPart::Variable(_) => Ok(()),
        ModelPart::Axiom(_) => Ok(()),
        ModelPart::Invariant(_) => Ok(()),
        ModelPart::Event(_) => Ok(()),
    }
}

/// A choice for each constant of the model.
pub(crate) fn choices_of(
    alloc: Global,
    model: &EbModel,
    types: &Typing,
) -> Result<Choices, AllocError>
    ensures { IfOk result (λ choices. choices ≡ problem.choices_of model.now types.now) }
{
    let mut choices = Choices::new(alloc);
    for part in model.parts.as_slice() {
        push_choice(alloc, types, part, &mut choices)?;
    }
    Ok(choices)
}

fn push_axiom(
    alloc: Global,
    setting: &Setting,
    part: &ModelPart,
    terms: &mut Terms,
) -> Result<(), AllocError>
    ensures { OnOk result (terms.new ≡ terms.old ++ map (λ l. lowered setting.now l.formula) (spec.part_axioms part.now)) }
{
    match part {
        ModelPart::Axiom(labelled) => {
            if !labelled.is_theorem {
                terms.push(term_of(alloc, setting, &labelled.formula)?)?;
            }
            Ok(())
        }
        ModelPart::Carrier(_, _) => Ok(()),
        ModelPart::Constant(_) => Ok(()),
        ModelPart::Variable(_) => Ok(()),
        ModelPart::Invariant(_) => Ok(()),
        ModelPart::Event(_) => Ok(()),
    }
}

/// The terms of the model's axioms.
pub(crate) fn axiom_terms(
    alloc: Global,
    setting: &Setting,
    model: &EbModel,
) -> Result<Terms, AllocError>
    ensures { IfOk result (λ terms. terms ≡ map (λ l. lowered setting.now l.formula) (spec.axioms model.now)) }
{
    let mut terms = Terms::new(alloc);
    for part in model.parts.as_slice() {
        push_axiom(alloc, setting, part, &mut terms)?;
    }
    Ok(terms)
}
