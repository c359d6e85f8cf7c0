ghost use Rattle.std.specs.Prelude.{◌≡◌};
ghost use Rattle.cbc_top.specs.declared.stop.Stop.TheVariants as stop;
ghost use Rattle.cbc_top.specs.steps.Stops as spec;

use model_text::{Refusal, TextFault};
use std::alloc::AllocError;

/// Why a run ends without an answer.
#[derive(Debug, Drop)]
pub(crate) enum Stop {
    Refused(Refusal),
    ReadFault,
    Memory,
}

impl From<AllocError> for Stop {
    ghost from_gives = { λ _ e. e ≡ stop.Memory };

    fn from(_: AllocError) -> Stop {
        Stop::Memory
    }
}

impl From<TextFault> for Stop {
    ghost from_gives = { λ fault e. e ≡ spec.text_stop fault };

    fn from(fault: TextFault) -> Stop {
        match fault {
            TextFault::Refused(refusal) => Stop::Refused(refusal),
            TextFault::Memory => Stop::Memory,
        }
    }
}
