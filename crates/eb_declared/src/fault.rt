ghost use Rattle.std.specs.Prelude.{◌≡◌};
ghost use Rattle.eb_declared.specs.declared.fault.RepeatFault.TheVariants as fault;

use eb_names::Name;
use std::alloc::AllocError;
use thiserror::Error;

/// Why the declarations of a text make up no model.
#[derive(Debug, Drop, Error)]
pub enum RepeatFault {
    /// A name is declared twice.
    #[error("a name is declared twice")]
    Repeated(Name),
    /// Memory ran out.
    #[error("memory ran out")]
    Memory,
}

impl From<AllocError> for RepeatFault {
    ghost from_gives = { λ _ e. e ≡ fault.Memory };

    fn from(_error: AllocError) -> RepeatFault {
        RepeatFault::Memory
    }
}
