//! What the numbers of faults stand for.

use crate::explaining::grammar::TokenFault;
use crate::explaining::reason::TypeFault;
use crate::explaining::text_faults::TextFault;
use word86::Number;

/// What is said of E107.
const LONG_SOURCE: &str = "a source has at most 1048576 bytes: part it into modules";

/// What is said of W1.
const SHARED: &str =
    "its parameters and variables are static, so one call may disturb the other: CALL it in main between DISABLE and ENABLE, or give each a procedure of its own";

/// A fault of names in one module.
#[derive(Clone, Copy)]
pub(crate) enum NameFault {
    Undeclared,
    Twice,
    Misplaced,
    Base,
    Values,
    Unjoined,
    Publics,
    Handlers,
}

/// A fault of procedures that call.
#[derive(Clone, Copy)]
pub(crate) enum CallFault {
    Recursion,
    LettingIn,
    Misused,
}

/// A fault of a schedule, of a ROM, or of the trace's reader.
#[derive(Clone, Copy)]
pub(crate) enum RunFault {
    Line,
    Order,
    NoStop,
    Unwritten,
    RomLength,
}

/// What a number stands for.
#[derive(Clone, Copy)]
pub(crate) enum FaultKind {
    /// These words say all.
    Words(&'static str),
    Text(TextFault),
    Syntax,
    Token(TokenFault),
    Name(NameFault),
    Mains,
    Data,
    Types(TypeFault),
    Calls(CallFault),
    Stack,
    Rom,
    Run(RunFault),
}

/// How far sources are gone through for a fault.
#[derive(Clone, Copy, PartialEq, Eq)]
pub(crate) enum Phase {
    /// Not at all.
    Apart,
    Tokens,
    Names,
    Types,
}

impl FaultKind {
    /// How far sources are gone through for it.
    pub fn phase(self) -> Phase {
        match self {
            FaultKind::Words(_) | FaultKind::Stack | FaultKind::Rom | FaultKind::Run(_) => {
                Phase::Apart
            }
            FaultKind::Text(_) | FaultKind::Syntax | FaultKind::Token(_) => Phase::Tokens,
            FaultKind::Name(_) | FaultKind::Mains | FaultKind::Data => Phase::Names,
            FaultKind::Types(_) | FaultKind::Calls(_) => Phase::Types,
        }
    }

    /// Whether no token has it, but the whole program.
    pub fn is_of_program(self) -> bool {
        match self {
            FaultKind::Mains | FaultKind::Data => true,
            FaultKind::Words(_)
            | FaultKind::Text(_)
            | FaultKind::Syntax
            | FaultKind::Token(_)
            | FaultKind::Name(_)
            | FaultKind::Types(_)
            | FaultKind::Calls(_)
            | FaultKind::Stack
            | FaultKind::Rom
            | FaultKind::Run(_) => false,
        }
    }
}

/// What a number stands for.
pub(crate) fn kind_of(number: Number) -> FaultKind {
    match number {
        Number::E101 => FaultKind::Text(TextFault::Character),
        Number::E102 => FaultKind::Text(TextFault::OpenString),
        Number::E103 => FaultKind::Text(TextFault::OpenComment),
        Number::E104 => FaultKind::Text(TextFault::Number),
        Number::E105 => FaultKind::Text(TextFault::Name),
        Number::E106 => FaultKind::Text(TextFault::Control),
        Number::E107 => FaultKind::Words(LONG_SOURCE),
        Number::E201 => FaultKind::Syntax,
        Number::E202 => FaultKind::Token(TokenFault::NestedLiterals),
        Number::E203 => FaultKind::Token(TokenFault::Depth),
        Number::E204 => FaultKind::Token(TokenFault::Apostrophe),
        Number::E205 => FaultKind::Token(TokenFault::Count),
        Number::E301 => FaultKind::Name(NameFault::Undeclared),
        Number::E302 => FaultKind::Name(NameFault::Twice),
        Number::E303 => FaultKind::Name(NameFault::Misplaced),
        Number::E304 => FaultKind::Name(NameFault::Base),
        Number::E305 => FaultKind::Name(NameFault::Values),
        Number::E306 => FaultKind::Name(NameFault::Unjoined),
        Number::E307 => FaultKind::Name(NameFault::Publics),
        Number::E308 => FaultKind::Mains,
        Number::E309 => FaultKind::Name(NameFault::Handlers),
        Number::E310 => FaultKind::Data,
        Number::E401 => FaultKind::Types(TypeFault::Types),
        Number::E402 => FaultKind::Types(TypeFault::Arguments),
        Number::E403 => FaultKind::Types(TypeFault::Data),
        Number::E404 => FaultKind::Calls(CallFault::Recursion),
        Number::E405 => FaultKind::Calls(CallFault::LettingIn),
        Number::E406 => FaultKind::Calls(CallFault::Misused),
        Number::E501 => FaultKind::Stack,
        Number::E601 => FaultKind::Rom,
        Number::E701 => FaultKind::Run(RunFault::Line),
        Number::E702 => FaultKind::Run(RunFault::Order),
        Number::E703 => FaultKind::Run(RunFault::NoStop),
        Number::E704 => FaultKind::Run(RunFault::Unwritten),
        Number::E705 => FaultKind::Run(RunFault::RomLength),
        Number::W1 => FaultKind::Words(SHARED),
    }
}
