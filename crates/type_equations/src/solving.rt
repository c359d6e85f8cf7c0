ghost use Rattle.std.specs.Prelude.{◌≤◌, IfOk, MatchResult};
ghost use Rattle.type_equations.specs.Depths.{AreShallow};
ghost use Rattle.type_equations.specs.Equations as spec;
ghost use Rattle.type_equations.specs.Faults.{OnFault};
ghost use Rattle.type_equations.specs.Stores.{ArePlaced, SaysTheSame};

use crate::depths::Depths;
use crate::equation::Equation;
use crate::fault::SolveFault;
use crate::merging::add_all;
use crate::settling::{loose, settle_all};
use crate::solution::Solution;
use crate::store::Store;
use std::alloc::Global;

/// Leads each link straight to where links lead.
fn shorten_all(store: &mut Store, total: u32)
    requires { ArePlaced store.old }
    ensures { SaysTheSame store.old store.new }
{
    for number in 0..total {
        let _root = store.root(number);
    }
}

/// The types of the numbers below `asked`, where the equations have one solution for these.
///
/// The equations speak of types with numbers below `total`. Types of other numbers may differ between solutions. The
/// fault `Clash` comes where no types solve the equations, and `Open` where some do, but not all have the same types
/// below `asked`. `Memory` comes where memory runs out, and where such a type is more than 1,000 deep: who goes through a
/// type by its parts takes stack by its depth. The time it takes is near linear in `total` and the number of equations,
/// though types grow exponentially with these.
pub fn solve(
    alloc: Global,
    asked: u32,
    total: u32,
    equations: &[Equation],
) -> Result<Solution, SolveFault>
    requires asked { asked ≤ total }
    requires below { spec.AreBelow total equations.now }
    ensures shallow { IfOk result (λ solution. AreShallow solution) }
    ensures solution { MatchResult result (λ solution. spec.IsOnlySolution asked equations.now solution) (λ fault. OnFault fault (spec.HaveNone equations.now) (spec.HaveSeveral asked equations.now)) }
{
    let mut store = Store::free(alloc, total)?;
    add_all(alloc, &mut store, equations)?;
    shorten_all(&mut store, total);
    let mut depths = Depths::unknown(alloc, total)?;
    let marks = settle_all(alloc, &store, &mut depths, total)?;
    match loose(&marks, asked) {
        Some(_) => Err(SolveFault::Open),
        None => {
            if !depths.are_low(asked) {
                return Err(SolveFault::Memory);
            }
            Ok(Solution::new(store, asked))
        }
    }
}
