//! Constant bytes in expressions and values.

ghost use Rattle.std.specs.Prelude.{◌≡◌, ◌++◌, ◌&&◌, IfOk, OnOk, map};
ghost use Rattle.plm_token.specs.Strings.{string_characters};
ghost use Rattle.plm_syntax.specs.View.{value_of};
ghost use Rattle.plm_decl.specs.declared.names.Datum.TheVariants as datum;
ghost use Rattle.plm_decl.specs.Inner.Scope.{frames_of};
ghost use Rattle.plm_decl.specs.Inner.Resolver.{known_of};
ghost use Rattle.plm_decl.specs.Expressions.{is_constant, constant_data, all_constant_data, are_constants, constant_bytes};
ghost use Rattle.plm_decl.specs.Inner.Expressions.{constants_put};

use crate::datum::number_datum;
use crate::layout::ScalarType;
use crate::names::{Datum, Object};
use crate::parts::append;
use crate::resolver::{Resolver, next};
use crate::scope::Scope;
use crate::spelling::constants_path;
use plm_syntax::{Position, Value};
use plm_token::string_value;
use std::alloc::AllocError;
use word86::Number;

/// Whether both hold.
fn both(first: bool, second: bool) -> bool
    ensures { result ≡ (first && second) }
{
    first && second
}

impl Resolver {
    /// Puts a value of constant bytes after the others; false where it is no byte and no string.
    fn constant_value(&self, value: &Value<'_>, bytes: &mut Vec<Datum>) -> Result<bool, AllocError>
        ensures byte { IfOk result (λ b. b ≡ is_constant (value_of value.now)) }
        ensures bytes { OnOk result (bytes.new.items ≡ bytes.old.items ++ constant_data (value_of value.now)) }
    {
        let datum = match value {
            Value::Numeral(number) => number_datum(ScalarType::Byte, number.value, false),
            Value::Negative(number) => number_datum(ScalarType::Byte, number.value, true),
            Value::Text(text) => {
                self.characters(text.text, bytes)?;
                return Ok(true);
            }
            Value::Location(_) => None,
        };
        match datum {
            Some(datum) => {
                bytes.push(datum)?;
                Ok(true)
            }
            None => Ok(false),
        }
    }

    /// Puts a string's characters after the others.
    fn characters(&self, text: &[u8], bytes: &mut Vec<Datum>) -> Result<(), AllocError>
        ensures { OnOk result (bytes.new.items ≡ bytes.old.items ++ map (λ c. datum.Byte c) (string_characters text.now)) }
    {
        for character in &string_value(self.alloc, text)? {
            bytes.push(Datum::Byte(*character))?;
        }
        Ok(())
    }

    /// Constant bytes, and whether all values are such.
    fn constant_values(&self, values: &[Value<'_>]) -> Result<(Vec<Datum>, bool), AllocError>
        ensures bytes { IfOk result (λ r. r.0.items ≡ all_constant_data (map value_of values.now)) }
        ensures fit { IfOk result (λ r. r.1 ≡ are_constants (map value_of values.now)) }
    {
        let mut bytes = Vec::new(self.alloc);
        let mut are_bytes = true;
        for value in values {
            let is_byte = self.constant_value(value, &mut bytes)?;
            are_bytes = both(are_bytes, is_byte);
        }
        Ok((bytes, are_bytes))
    }

    /// Makes an object of these bytes, and answers its number.
    fn put_constants(&mut self, scope: &Scope<'_>, bytes: Vec<Datum>) -> Result<usize, AllocError>
        ensures { IfOk result (λ o. (o, known_of self.new) ≡ constants_put (frames_of scope.now) bytes.items (known_of self.old)) }
    {
        self.constants = next(self.constants);
        let path = constants_path(self.alloc, scope.path(), self.constants)?;
        let object = self.objects.len();
        let size = bytes.len() as u64;
        append(
            &mut self.objects,
            Object {
                path,
                size,
                initial: bytes,
            },
        )?;
        Ok(object)
    }

    /// Makes the object of constant bytes, and answers its number.
    pub fn constant_bytes(
        &mut self,
        scope: &Scope<'_>,
        place: Position,
        values: &[Value<'_>],
    ) -> Result<usize, AllocError>
        ensures { IfOk result (λ o. (o, known_of self.new) ≡ constant_bytes (frames_of scope.now) place (map value_of values.now) (known_of self.old)) }
    {
        let (bytes, are_bytes) = self.constant_values(values)?;
        self.note_unless(are_bytes, Number::E305, place)?;
        let object = self.put_constants(scope, bytes)?;
        Ok(object)
    }
}
