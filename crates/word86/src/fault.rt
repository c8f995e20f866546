//! Why a call refuses.

ghost use Rattle.std.specs.Prelude.{◌≡◌};
ghost use Rattle.word86.specs.declared.fault.Fault.TheVariants.{Memory};

use crate::number::Number;
use std::alloc::{AllocError, AllocFailed};
use thiserror::Error;

/// Why a call refuses: a growth of memory was refused, or a fault stands at a line of a module.
#[derive(Debug, Clone, Copy, PartialEq, Eq, Error)]
pub enum Fault {
    /// A growth of memory was refused.
    #[error("out of memory")]
    Memory,
    /// The module, counted from 0 (0 where a call is handed one text or none); the line, counted from 1; and the fault.
    #[error("module {0}, line {1}: {text}", text = .2.text())]
    At(u32, u32, Number),
}

impl From<AllocError> for Fault {
    ghost from_gives = { λ _ e. e ≡ Memory };

    fn from(_refused: AllocError) -> Fault {
        Fault::Memory
    }
}

impl<T: Drop> From<AllocFailed<T>> for Fault {
    ghost from_gives = { λ _ e. e ≡ Memory };

    fn from(_refused: AllocFailed<T>) -> Fault {
        Fault::Memory
    }
}
