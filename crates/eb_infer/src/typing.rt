//! The typing of a model.
ghost use Rattle.std.specs.Prelude.{IfOk, IfErr};
ghost use Rattle.eb_infer.specs.Typings as spec;
ghost use Rattle.type_equations.specs.Depths.{AreShallow};

use crate::fault::TypeFault;
use eb_model::EbModel;
use eb_typing::typing_problem;
use std::alloc::Global;
use type_equations::{Solution, SolveFault, solve};

/// The types of the identifiers and marks of a model by their numbers, each at most 1,000 deep. Contracts see their list.
pub type Typing = Solution;

/// The types of the identifiers and marks of the model, by their numbers, where there is one typing. The fault `Clash` comes
/// exactly where there is no typing, `Open` where there are two different ones, and `Memory` where memory runs out, where
/// there are more than 2^32 numbers, and where a type is more than 1,000 deep: the stack of who goes through a type by
/// its parts is memory too. The types are those of Abrial, "Modeling in Event-B" (2010).
pub fn infer(alloc: Global, model: &EbModel) -> Result<Typing, TypeFault>
    ensures typed { IfOk result (λ typing. spec.IsOnly model.now typing) }
    ensures shallow { IfOk result (λ typing. AreShallow typing) }
    ensures cause { IfErr result (spec.IsFaultOf model.now) }
{
    let problem = typing_problem(alloc, model)?;
    let equations = problem.equations.as_slice();
    match solve(alloc, problem.asked, problem.total, equations) {
        Ok(typing) => Ok(typing),
        Err(SolveFault::Clash) => Err(TypeFault::Clash),
        Err(SolveFault::Open) => Err(TypeFault::Open),
        Err(SolveFault::Memory) => Err(TypeFault::Memory),
    }
}
