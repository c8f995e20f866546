//! What a value fills a scalar with.

ghost use Rattle.std.specs.Prelude.{◌≡◌};
ghost use Rattle.plm_decl.specs.Datum.{character_datum, number_datum, takes, text_datum, word_datum};

use crate::layout::ScalarType;
use crate::names::Datum;
use plm_syntax::LocationForm;

/// A number in a scalar, or such a number with a minus before it: its two's complement there.
pub fn number_datum(scalar: ScalarType, value: u32, negative: bool) -> Option<Datum>
    ensures { result ≡ number_datum scalar value negative }
{
    match scalar {
        ScalarType::Byte => {
            let byte = u8::try_from(value).ok()?;
            Some(Datum::Byte(if negative { byte.wrapping_neg() } else { byte }))
        }
        ScalarType::Word => {
            let word = u16::try_from(value).ok()?;
            Some(Datum::Word(if negative { word.wrapping_neg() } else { word }))
        }
        ScalarType::Pointer => None,
        ScalarType::Integer => {
            let greatest = if negative { 0x8000 } else { 0x7FFF };
            let word = u16::try_from(value).ok()?;
            let held = if negative { word.wrapping_neg() } else { word };
            (word <= greatest).then_some(Datum::Word(held))
        }
    }
}

/// The characters of a string in a WORD: one, or two with the first high.
fn word_datum(characters: &[u8]) -> Option<Datum>
    ensures { result ≡ word_datum characters.now }
{
    match characters {
        [low] => Some(Datum::Word(u16::from(*low))),
        [high, low] => Some(Datum::Word(u16::from(*high) * 256 + u16::from(*low))),
        _ => None,
    }
}

/// A string in a scalar.
pub fn text_datum(scalar: ScalarType, characters: &[u8]) -> Option<Datum>
    ensures { result ≡ text_datum scalar characters.now }
{
    match scalar {
        ScalarType::Word => word_datum(characters),
        ScalarType::Byte | ScalarType::Pointer | ScalarType::Integer => None,
    }
}

/// Whether a location of this form goes into this scalar.
pub fn takes(scalar: ScalarType, form: LocationForm) -> bool
    ensures { result ≡ takes scalar form }
{
    match (scalar, form) {
        (ScalarType::Word, LocationForm::Offset) => true,
        (ScalarType::Pointer, LocationForm::Pointer) => true,
        (ScalarType::Byte, LocationForm::Offset | LocationForm::Pointer) => false,
        (ScalarType::Word, LocationForm::Pointer) => false,
        (ScalarType::Pointer, LocationForm::Offset) => false,
        (ScalarType::Integer, LocationForm::Offset | LocationForm::Pointer) => false,
    }
}

/// A character of a string that fills BYTEs.
pub fn character_datum(scalar: ScalarType, character: u8) -> Option<Datum>
    ensures { result ≡ character_datum scalar character }
{
    match scalar {
        ScalarType::Byte => Some(Datum::Byte(character)),
        ScalarType::Word | ScalarType::Pointer | ScalarType::Integer => None,
    }
}
