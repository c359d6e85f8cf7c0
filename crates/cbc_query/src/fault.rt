//! Why a query has no problem.
ghost use Rattle.std.specs.Prelude.{◌≡◌};
ghost use Rattle.cbc_query.specs.declared.fault.QueryFault.TheVariants.{Memory};

use scope_settings::Limit;
use std::alloc::AllocError;
use thiserror::Error;

/// Why a query has no problem.
#[derive(Clone, Copy, Debug, PartialEq, Eq, Error)]
pub enum QueryFault {
    /// The problem passes this limit, and none that is judged before it.
    #[error("a limit is passed")]
    Limit(Limit),
    /// Memory ran out, or there are more than `u32::MAX` constants or axioms.
    #[error("memory ran out")]
    Memory,
}

impl From<AllocError> for QueryFault {
    ghost from_gives = { λ _ fault. fault ≡ Memory };

    fn from(_error: AllocError) -> QueryFault {
        QueryFault::Memory
    }
}
