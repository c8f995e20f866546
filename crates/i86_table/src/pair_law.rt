//! What a pair of registers holds.

ghost use Rattle.i86_table.specs.PairLaw.{BytePairLaws, WordPairLaws};

/// The laws of pairs: the register of the lower number stands first, and a pair is that of its registers.
pub fn pair_laws()
    ensures bytes { BytePairLaws }
    ensures words { WordPairLaws }
{}
