ghost use Rattle.std.specs.Prelude.{◌≡◌};
ghost use Rattle.eb_infer.specs.declared.fault.TypeFault.TheVariants.{Memory};

use std::alloc::{AllocError, AllocFailed};
use thiserror::Error;

/// Why a model has no answer to what its types are.
#[derive(Clone, Copy, Debug, PartialEq, Eq, Error)]
pub enum TypeFault {
    /// There is no typing.
    #[error("the types clash")]
    Clash,
    /// There are two different typings.
    #[error("a type is open")]
    Open,
    /// Memory ran out, there are more than 2^32 numbers, or a type is more than 1,000 deep.
    #[error("memory ran out")]
    Memory,
}

impl From<AllocError> for TypeFault {
    ghost from_gives = { λ _ fault. fault ≡ Memory };

    fn from(_error: AllocError) -> TypeFault {
        TypeFault::Memory
    }
}

impl<T: Drop> From<AllocFailed<T>> for TypeFault {
    ghost from_gives = { λ _ fault. fault ≡ Memory };

    fn from(_error: AllocFailed<T>) -> TypeFault {
        TypeFault::Memory
    }
}
