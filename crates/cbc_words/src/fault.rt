ghost use Rattle.std.specs.Prelude.{◌≡◌};
ghost use Rattle.cbc_words.specs.declared.fault.WordsFault.TheVariants.{Memory};

use std::alloc::AllocError;
use thiserror::Error;

/// Why words are no command.
#[derive(Clone, Copy, Debug, PartialEq, Eq, Error)]
pub enum WordsFault {
    /// They ask for nothing that the program does: help and version, too, are no command.
    #[error("the words are no command")]
    Words,
    /// Memory ran out.
    #[error("memory ran out")]
    Memory,
}

impl From<AllocError> for WordsFault {
    ghost from_gives = { λ _ fault. fault ≡ Memory };

    fn from(_error: AllocError) -> WordsFault {
        WordsFault::Memory
    }
}
