//! Why a text has no scope.
ghost use Rattle.std.specs.Prelude.{◌≡◌};
ghost use Rattle.scope_settings.specs.declared.fault.ScopeFault.TheVariants as fault;

use crate::limit::Limit;
use std::alloc::AllocError;
use thiserror::Error;

/// Why a text has no scope.
#[derive(Debug, Drop, Error)]
pub enum ScopeFault {
    /// The scope or the model passes this limit, and none that is judged before it.
    #[error("a limit is passed")]
    Limit(Limit),
    /// Memory ran out.
    #[error("memory ran out")]
    Memory,
}

impl From<AllocError> for ScopeFault {
    ghost from_gives = { λ _ e. e ≡ fault.Memory };

    fn from(_error: AllocError) -> ScopeFault {
        ScopeFault::Memory
    }
}
