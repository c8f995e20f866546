//! What the bytes of a variable are.

ghost use Rattle.std.specs.Prelude.{◌≡◌};
ghost use Rattle.plm_decl.specs.Layout.{scalar_of, width_of, size_of};
ghost use Rattle.plm_decl.specs.Datum.{is_byte};

use plm_syntax::Scalar;
use word86::Width;

/// What a scalar's bytes are.
#[derive(Debug, Clone, Copy, PartialEq, Eq)]
pub enum ScalarType {
    Byte,
    Word,
    /// An offset in the one data segment.
    Pointer,
    /// A number from -32,768 to 32,767.
    Integer,
}

impl ScalarType {
    /// The type that a declaration names: ADDRESS is another word for WORD.
    pub fn of(scalar: Scalar) -> ScalarType
        ensures { result ≡ scalar_of scalar }
    {
        match scalar {
            Scalar::Byte => ScalarType::Byte,
            Scalar::Word | Scalar::Address => ScalarType::Word,
            Scalar::Pointer => ScalarType::Pointer,
            Scalar::Integer => ScalarType::Integer,
        }
    }

    /// Whether it is a BYTE, which takes a character of a string.
    pub(crate) fn is_byte(self) -> bool
        ensures { result ≡ is_byte self }
    {
        match self {
            ScalarType::Byte => true,
            ScalarType::Word | ScalarType::Pointer | ScalarType::Integer => false,
        }
    }

    /// The width of an access to it.
    pub fn width(self) -> Width
        ensures { result ≡ width_of self }
    {
        match self {
            ScalarType::Byte => Width::Byte,
            ScalarType::Word | ScalarType::Pointer | ScalarType::Integer => Width::Word,
        }
    }

    /// How many bytes it has.
    pub fn size(self) -> u64
        ensures { result ≡ size_of self }
    {
        match self {
            ScalarType::Byte => 1,
            ScalarType::Word | ScalarType::Pointer | ScalarType::Integer => 2,
        }
    }
}

/// A member of a structure: its scalars' type, its dimension, and how many bytes of the structure stand before it.
#[derive(Clone, Copy)]
pub struct Member {
    pub scalar: ScalarType,
    pub dimension: Option<u32>,
    pub offset: u64,
}

/// A member with its name, in normal form.
#[derive(Drop)]
pub struct Field {
    pub name: Vec<u8>,
    pub member: Member,
    /// How many scalars of the structure stand before it.
    pub(crate) scalars_before: u64,
}

/// What an element is: a scalar, or a structure by its number.
#[derive(Clone, Copy, PartialEq, Eq)]
pub enum Form {
    Scalar(ScalarType),
    Structure(usize),
}
