ghost use Rattle.std.specs.Prelude.{◌≡◌};
ghost use Rattle.type_equations.specs.declared.fault.SolveFault.TheVariants.{Memory};

use std::alloc::{AllocError, AllocFailed};
use thiserror::Error;

/// Why equations have no answer.
#[derive(Clone, Copy, Debug, PartialEq, Eq, Error)]
pub enum SolveFault {
    /// No types solve the equations.
    #[error("no types solve the equations")]
    Clash,
    /// Several solutions differ in the types that are asked for.
    #[error("several types solve the equations")]
    Open,
    /// Memory ran out, or a type that is asked for is more than 1,000 deep.
    #[error("memory ran out")]
    Memory,
}

impl From<AllocError> for SolveFault {
    ghost from_gives = { λ _ fault. fault ≡ Memory };

    fn from(_error: AllocError) -> SolveFault {
        SolveFault::Memory
    }
}

impl<T: Drop> From<AllocFailed<T>> for SolveFault {
    ghost from_gives = { λ _ fault. fault ≡ Memory };

    fn from(_error: AllocFailed<T>) -> SolveFault {
        SolveFault::Memory
    }
}
