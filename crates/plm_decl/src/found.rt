//! Faults where they stand, and the least of them.

ghost use Rattle.std.specs.Prelude.{◌≡◌, [], IfNone, IfSome, None, Some};
ghost use Rattle.plm_decl.specs.Found.{precedes, IsLeast, fault_at};
ghost use Rattle.plm_decl.specs.Least.{sooner, least};

use plm_syntax::Position;
use word86::{Fault, Number};

/// A fault of a declaration, a name, a type or the whole program, where it stands.
#[derive(Clone, Copy)]
pub struct Found {
    pub module: usize,
    pub place: Position,
    pub number: Number,
}

impl Found {
    /// Whether it is answered before the other: by module, token and number.
    pub fn precedes(&self, other: &Found) -> bool
        ensures { result ≡ precedes self.now other.now }
    {
        if self.module != other.module {
            self.module < other.module
        } else if self.place.token != other.place.token {
            self.place.token < other.place.token
        } else {
            self.number.code() < other.number.code()
        }
    }

    /// What is answered.
    pub fn fault(&self) -> Fault
        ensures { result ≡ fault_at self.now }
    {
        Fault::At(
            u32::try_from(self.module).unwrap_or(u32::MAX),
            self.place.line,
            self.number,
        )
    }
}

/// Of two faults the one that is answered before the other, of equal ones the first.
fn sooner(first: Found, second: Found) -> Found
    ensures { Some result ≡ sooner (Some first) second }
{
    if second.precedes(&first) {
        second
    } else {
        first
    }
}

/// The least of the faults, the first of equal ones; `None` where there is none.
pub fn least(faults: &[Found]) -> Option<Found>
    ensures value { result ≡ least None faults.now }
    ensures found { IfSome result (λ found. IsLeast faults.now found) }
    ensures none { IfNone result (faults.now ≡ []) }
{
    let mut first: Option<Found> = None;
    for found in faults {
        first = Some(match first {
            Some(other) => sooner(other, *found),
            None => *found,
        });
    }
    first
}
