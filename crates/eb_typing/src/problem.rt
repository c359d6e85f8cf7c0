//! The equations of a model.
ghost use Rattle.std.specs.Prelude.{◌≡◌, ◌≤◌, IfOk};
ghost use Rattle.eb_typing.specs.Equating.{Equated};
ghost use Rattle.type_equations.specs.Equations.{IsBelow, AreBelow};

use crate::generated::Generated;
use crate::model::parts;
use eb_model::EbModel;
use std::alloc::{AllocError, Global};
use type_equations::{Equation, Equations};

/// Equations, and which numbers they speak of.
#[derive(Drop)]
pub struct Problem {
    /// How many numbers the identifiers and marks have, which are the first ones.
    pub asked: u32,
    /// A number behind all numbers.
    pub total: u32,
    /// What is said of the types with these numbers.
    pub equations: Equations,
}

/// A number behind those of the equation.
fn end_of(equation: Equation) -> Result<u32, AllocError>
    ensures { IfOk result (λ end. IsBelow end equation) }
{
    let last = match equation {
        Equation::Integer(i) | Equation::Boolean(i) | Equation::Carrier(i, _) => i,
        Equation::Same(i, j) | Equation::Power(i, j) => i.max(j),
        Equation::Product(i, j, k) => i.max(j).max(k),
    };
    last.checked_add(1).ok_or(AllocError)
}

/// The number, or a greater one behind those of the equation.
fn behind(total: u32, equation: Equation) -> Result<u32, AllocError>
    ensures grows { IfOk result (λ end. total ≤ end) }
    ensures below { IfOk result (λ end. IsBelow end equation) }
{
    let end = end_of(equation)?;
    Ok(total.max(end))
}

/// A number behind those of the equations, at least the first one.
fn total_of(asked: u32, equations: &[Equation]) -> Result<u32, AllocError>
    ensures asked { IfOk result (λ total. asked ≤ total) }
    ensures below { IfOk result (λ total. AreBelow total equations.now) }
{
    let mut total = asked;
    for equation in equations {
        total = behind(total, *equation)?;
    }
    Ok(total)
}

/// The equations whose solutions are the typings of the model.
///
/// The first numbers are those that the model's identifiers and marks have in it; those behind them are of types of parts of its
/// formulas. The only error is want of memory, which also comes where there are more than 2^32 numbers. The types are those of
/// Abrial, "Modeling in Event-B" (2010).
pub fn typing_problem(alloc: Global, model: &EbModel) -> Result<Problem, AllocError>
    ensures equated { IfOk result (λ p. Equated model.now p.asked p.equations) }
    ensures asked { IfOk result (λ p. p.asked ≤ p.total) }
    ensures below { IfOk result (λ p. AreBelow p.total p.equations) }
{
    let asked = model.numbers;
    let mut made = Generated::new(alloc, asked);
    parts(alloc, asked, model.parts.as_slice(), &mut made)?;
    let equations = made.equations;
    let total = total_of(asked, equations.as_slice())?;
    Ok(Problem {
        asked,
        total,
        equations,
    })
}
