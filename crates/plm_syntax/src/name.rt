//! Names in normal form: in capitals and without dollar signs.

ghost use Rattle.std.specs.Prelude.{◌≡◌, true, IfOk, IfErr};
ghost use Rattle.word86.specs.declared.fault.Fault.TheVariants.{Memory};
ghost use Rattle.plm_token.specs.Names.{normal};
ghost use Rattle.plm_syntax.specs.Inner.Name.{letters_of, changes};

use plm_token::normal;
use std::alloc::Global;
use word86::Fault;

/// A text in normal form, in capitals and without dollar signs. Most are written so: for them no second text is made.
#[derive(Drop)]
pub enum Name<'a> {
    AsWritten(&'a [u8]),
    Changed(Vec<u8>),
}

/// Whether a character is another one in normal form, or none.
fn changes(letter: u8) -> bool
    ensures { result ≡ changes letter }
{
    matches!(letter, b'$' | b'a'..=b'z')
}

/// Whether a text is written in normal form.
fn is_as_written(text: &[u8]) -> bool
    ensures { result ≡ true → normal text.now ≡ text.now }
{
    for letter in text {
        if changes(*letter) {
            return false;
        }
    }
    true
}

impl<'a> Name<'a> {
    /// The normal form of a text.
    pub(crate) fn of(alloc: Global, text: &'a [u8]) -> Result<Self, Fault>
        ensures ok { IfOk result (λ n. letters_of n ≡ normal text.now) }
        ensures err { IfErr result (λ f. f ≡ Memory) }
    {
        if is_as_written(text) {
            return Ok(Name::AsWritten(text));
        }
        let letters = normal(alloc, text)?;
        Ok(Name::Changed(letters))
    }

    /// Its letters, one after another.
    pub(crate) fn letters(&self) -> &[u8]
        ensures { result.now ≡ letters_of self.now }
    {
        match self {
            Name::AsWritten(letters) => letters,
            Name::Changed(letters) => letters.as_slice(),
        }
    }
}
