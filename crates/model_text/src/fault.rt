ghost use Rattle.std.specs.Prelude.{◌≡◌};
ghost use Rattle.model_text.specs.declared.fault.TextFault.TheVariants as fault;
ghost use Rattle.model_text.specs.steps.Faults as spec;

use crate::refusal::Refusal;
use cbc_query::QueryFault;
use eb_infer::TypeFault;
use eb_lexer::LexFault;
use eb_lower::NameFault;
use eb_parser::ParseFault;
use scope_settings::ScopeFault;
use std::alloc::AllocError;

/// Why a text asks nothing that is answered.
#[derive(Debug, Drop)]
pub enum TextFault {
    Refused(Refusal),
    Memory,
}

impl From<AllocError> for TextFault {
    ghost from_gives = { λ _ e. e ≡ fault.Memory };

    fn from(_: AllocError) -> TextFault {
        TextFault::Memory
    }
}

impl From<LexFault> for TextFault {
    ghost from_gives = { λ lexing e. e ≡ spec.lexing_fault lexing };

    fn from(fault: LexFault) -> TextFault {
        match fault {
            LexFault::NotUtf8 => TextFault::Refused(Refusal::NotUtf8),
            LexFault::BadToken(place) => TextFault::Refused(Refusal::BadToken(place)),
            LexFault::Memory => TextFault::Memory,
        }
    }
}

impl From<ParseFault> for TextFault {
    ghost from_gives = { λ parsing e. e ≡ spec.parsing_fault parsing };

    fn from(fault: ParseFault) -> TextFault {
        match fault {
            ParseFault::Syntax(place) => TextFault::Refused(Refusal::Syntax(place)),
            ParseFault::TooDeep => TextFault::Refused(Refusal::TooDeep),
            ParseFault::Memory => TextFault::Memory,
        }
    }
}

impl From<NameFault> for TextFault {
    ghost from_gives = { λ naming e. e ≡ spec.naming_fault naming };

    fn from(fault: NameFault) -> TextFault {
        match fault {
            NameFault::Unsupported(place) => TextFault::Refused(Refusal::Unsupported(place)),
            NameFault::DuplicateName(name) => TextFault::Refused(Refusal::DuplicateName(name)),
            NameFault::UnknownName(name) => TextFault::Refused(Refusal::UnknownName(name)),
            NameFault::Memory => TextFault::Memory,
        }
    }
}

impl From<TypeFault> for TextFault {
    ghost from_gives = { λ typing e. e ≡ spec.typing_fault typing };

    fn from(fault: TypeFault) -> TextFault {
        match fault {
            TypeFault::Clash => TextFault::Refused(Refusal::TypeClash),
            TypeFault::Open => TextFault::Refused(Refusal::TypeOpen),
            TypeFault::Memory => TextFault::Memory,
        }
    }
}

impl From<ScopeFault> for TextFault {
    ghost from_gives = { λ scope e. e ≡ spec.scope_fault scope };

    fn from(fault: ScopeFault) -> TextFault {
        match fault {
            ScopeFault::Limit(limit) => TextFault::Refused(Refusal::ScopeBad(limit)),
            ScopeFault::Memory => TextFault::Memory,
        }
    }
}

impl From<QueryFault> for TextFault {
    ghost from_gives = { λ query e. e ≡ spec.query_fault query };

    fn from(fault: QueryFault) -> TextFault {
        match fault {
            QueryFault::Limit(limit) => TextFault::Refused(Refusal::ScopeBad(limit)),
            QueryFault::Memory => TextFault::Memory,
        }
    }
}
