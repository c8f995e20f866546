//! The status with which a run of the program ends.

ghost use Rattle.std.specs.Prelude.{◌≡◌};
ghost use Rattle.plm86.specs.Status.{status_of, status_of_fault};

use board::End;
use word86::{Fault, Number};

/// 0 for a run to its schedule's stop; 3 where the trace could not be written (E704); 1 for every other end, want of memory
/// and `OPCODE` among them.
pub fn status(end: &Result<End, Fault>) -> u8
    ensures { result ≡ status_of end.now }
{
    match end {
        Ok(End::Stopped) => 0,
        Err(Fault::At(_, _, number)) => status_of_fault(*number),
        Ok(End::Opcode(_)) | Err(Fault::Memory) => 1,
    }
}

/// 3 where the output cannot be written (E704).
pub(crate) fn status_of_fault(number: Number) -> u8
    ensures { result ≡ status_of_fault number }
{
    if number.code() == 704 { 3 } else { 1 }
}
