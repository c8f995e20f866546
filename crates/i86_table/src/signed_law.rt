//! The laws of words with sign.

ghost use Rattle.i86_table.specs.SignedLaw.{SignedLaws};

use word86::signed_law;

/// The laws that JL and JLE compare words with sign, after CMP and after TEST, that CWD and IDIV divide them, and that words with
/// their sign bits turned stand in the order of numbers with sign.
pub fn signed_laws()
    ensures { SignedLaws }
{
    signed_law();
}
