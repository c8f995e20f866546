//! Why there is no tree.

ghost use Rattle.std.specs.Prelude.{◌≡◌};
ghost use Rattle.plm_syntax.specs.declared.failure.Failure.TheVariants.{Memory};

use std::alloc::{AllocError, AllocFailed};

/// Why there is no tree.
#[derive(Clone, Copy)]
pub(crate) enum Failure {
    Memory,
    /// How many tokens are left after the first with which no module begins; the end of the text counts as one.
    Refused(usize),
    /// The same of the token that opens the first level too deep.
    Deep(usize),
}

impl From<AllocError> for Failure {
    ghost from_gives = { λ _ e. e ≡ Memory };

    fn from(_refused: AllocError) -> Failure {
        Failure::Memory
    }
}

impl<T: Drop> From<AllocFailed<T>> for Failure {
    ghost from_gives = { λ _ e. e ≡ Memory };

    fn from(_refused: AllocFailed<T>) -> Failure {
        Failure::Memory
    }
}
