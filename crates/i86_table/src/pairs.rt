//! Two registers whose order says nothing, as XCHG takes them.

ghost use Rattle.std.specs.Prelude.{◌≤◌, ◌≡◌, cond};
ghost use Rattle.i86_table.specs.Numbers.{byte_register_code, word_register_code};

use crate::registers::{Register8, Register16};

/// Two byte registers, or one twice, the one of the lower number first.
#[derive(Clone, Copy)]
pub struct BytePair {
    pub first: Register8,
    pub second: Register8,
    pub ghost ordered: { byte_register_code first ≤ byte_register_code second },
}

/// Two word registers, or one twice, the one of the lower number first.
#[derive(Clone, Copy)]
pub struct WordPair {
    pub first: Register16,
    pub second: Register16,
    pub ghost ordered: { word_register_code first ≤ word_register_code second },
}

/// Two registers as they are, or turned round.
fn turned<R: Copy>(in_order: bool, a: R, b: R) -> (R, R)
    ensures { result ≡ cond in_order (a, b) (b, a) }
{
    if in_order { (a, b) } else { (b, a) }
}

impl BytePair {
    ghost use Rattle.std.specs.Prelude.{◌≡◌};
    ghost use Rattle.i86_table.specs.Pairs.{byte_pair};

    /// The pair of two registers, in whichever order they are given.
    pub fn of(a: Register8, b: Register8) -> BytePair
        ensures { result ≡ byte_pair a b }
    {
        let (first, second) = turned(a.number() <= b.number(), a, b);
        BytePair { first, second }
    }
}

impl WordPair {
    ghost use Rattle.std.specs.Prelude.{◌≡◌};
    ghost use Rattle.i86_table.specs.Pairs.{word_pair};

    /// The pair of two registers, in whichever order they are given.
    pub fn of(a: Register16, b: Register16) -> WordPair
        ensures { result ≡ word_pair a b }
    {
        let (first, second) = turned(a.number() <= b.number(), a, b);
        WordPair { first, second }
    }
}
