//! The law of words with sign and of what they are divided into.

ghost use Rattle.word86.specs.DivisionLaw.{SignedLaw};

/// The law that each word is one number with sign and each such number one word, when words with sign have a quotient, and what
/// quotient and remainder are.
pub fn signed_law()
    ensures { SignedLaw }
{}
