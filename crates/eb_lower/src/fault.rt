ghost use Rattle.std.specs.Prelude.{◌≡◌};
ghost use Rattle.eb_lower.specs.declared.fault.NameFault.TheVariants as fault;
ghost use Rattle.eb_lower.specs.steps.Faults as spec;

use eb_declared::RepeatFault;
use eb_names::Name;
use std::alloc::AllocError;
use thiserror::Error;

/// Why the names of a text make up no model.
#[derive(Debug, Drop, Error)]
pub enum NameFault {
    /// What stands at this byte isn't supported.
    #[error("what stands at byte {0} is not supported")]
    Unsupported(u32),
    /// A name is declared twice.
    #[error("a name is declared twice")]
    DuplicateName(Name),
    /// A name is used where no declaration of it reaches.
    #[error("a name is not declared")]
    UnknownName(Name),
    /// Memory ran out.
    #[error("memory ran out")]
    Memory,
}

impl From<AllocError> for NameFault {
    ghost from_gives = { λ _ e. e ≡ fault.Memory };

    fn from(_error: AllocError) -> NameFault {
        NameFault::Memory
    }
}

impl From<RepeatFault> for NameFault {
    ghost from_gives = { λ repeated e. e ≡ spec.naming_fault repeated };

    fn from(fault: RepeatFault) -> NameFault {
        match fault {
            RepeatFault::Repeated(name) => NameFault::DuplicateName(name),
            RepeatFault::Memory => NameFault::Memory,
        }
    }
}
