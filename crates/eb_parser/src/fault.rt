ghost use Rattle.std.specs.Prelude.{◌≡◌};
ghost use Rattle.eb_parser.specs.declared.fault.Stop.TheVariants as stop;
ghost use Rattle.eb_parser.specs.declared.fault.ParseFault.TheVariants as parse;

use std::alloc::{AllocError, AllocFailed};
use thiserror::Error;

/// Why no formula is read.
#[derive(Clone, Copy, Debug, PartialEq, Eq, Error)]
pub enum ParseFault {
    /// No formula begins at this byte.
    #[error("no formula begins at byte {0}")]
    Syntax(u32),
    /// A formula is too high.
    #[error("a formula is higher than 200")]
    TooDeep,
    /// Memory ran out.
    #[error("memory ran out")]
    Memory,
}

impl From<AllocError> for ParseFault {
    ghost from_gives = { λ _ e. e ≡ parse.Memory };

    fn from(_error: AllocError) -> ParseFault {
        ParseFault::Memory
    }
}

/// Why a reading ended without a formula.
#[derive(Clone, Copy)]
pub enum Fault {
    /// No formula begins here.
    Syntax,
    /// The formula is higher than the reader goes.
    TooDeep,
}

/// Why a step of the reader gave nothing.
#[derive(Drop)]
pub enum Stop {
    /// Memory ran out.
    Memory,
    /// No formula is read.
    Fault(Fault),
}

impl From<AllocError> for Stop {
    ghost from_gives = { λ _ e. e ≡ stop.Memory };

    fn from(_error: AllocError) -> Stop {
        Stop::Memory
    }
}
