//! Initial values.

ghost use Rattle.std.specs.Prelude.{◌≡◌, ◌+◌, ◌-◌, ◌^◌, ◌<◌, IfOk, OnOk, OnSome, map, length, option_map, slice_get};
ghost use Rattle.plm_syntax.specs.View.{value_of, variable_of};
ghost use Rattle.plm_syntax.specs.View as tree;
ghost use Rattle.plm_decl.specs.Inner.Scope.{frames_of};
ghost use Rattle.plm_decl.specs.Inner.Resolver.{known_of};
ghost use Rattle.plm_decl.specs.ResolvedView as view;
ghost use Rattle.plm_decl.specs.Fill as spec;
ghost use Rattle.plm_decl.specs.Inner.Fill.{filling_of};

use crate::datum::{character_datum, number_datum, takes, text_datum};
use crate::layout::ScalarType;
use crate::names::{Datum, DeclaredLocation, Region};
use crate::resolved::{Binding, Location};
use crate::resolver::Resolver;
use crate::scope::Scope;
use crate::shape::{Shape, elements};
use plm_syntax::{Value, Variable as SyntaxVariable};
use plm_token::string_value;
use std::alloc::AllocError;
use word86::Number;

/// What values fill: an element's names, their shape, and the number of the first one's variable.
#[derive(Clone, Copy)]
pub struct Filling<'f, 'a> {
    pub names: &'f [SyntaxVariable<'a>],
    pub shape: Shape,
    pub number: usize,
}

/// The scalar that the next value fills: that of a name, this many after its first.
#[derive(Clone, Copy)]
struct Cursor {
    name: usize,
    scalar: u64,
}

impl Cursor {
    /// The next one, where a name has this many scalars.
    fn after(self, scalars: u64) -> Cursor
        requires { self.name + 1 < 2 ^ 64 }
        ensures { result ≡ spec.cursor_after scalars self }
    {
        let scalar = self.scalar.saturating_add(1);
        if scalar < scalars {
            return Cursor {
                name: self.name,
                scalar,
            };
        }
        Cursor {
            name: self.name + 1,
            scalar: 0,
        }
    }
}

/// The address that lies this many bytes after the first of a variable.
fn address_at(variable: usize, distance: Option<u64>) -> Option<Datum>
    ensures { result ≡ spec.address_at variable distance }
{
    match distance {
        Some(distance) => Some(Datum::Variable(variable, (distance % 0x1_0000) as u16)),
        None => None,
    }
}

/// The address of a variable's byte; a based one has none.
fn address_datum(variable: usize, region: Region, distance: Option<u64>) -> Option<Datum>
    ensures { result ≡ spec.address_datum variable region distance }
{
    match region {
        Region::Based(_) => None,
        Region::Ram(..) | Region::Screen(..) | Region::Nowhere => address_at(variable, distance),
    }
}

impl Resolver {
    /// What a location stands for, if it is not based and its subscripts are numbers. What is no variable is no fault here.
    fn location_datum(&self, location: &Location) -> Option<Datum>
        ensures { result ≡ spec.location_datum (known_of self.now) (view.location_of location.now) }
    {
        let reference = match location {
            Location::Constants(_, _, object) => return Some(Datum::Constants(*object)),
            Location::Reference(_, _, reference) => reference,
        };
        let Binding::Variable(number) = reference.binding else {
            return Some(Datum::Word(0));
        };
        match self.variables.get(number) {
            Some(variable) => address_datum(number, variable.region, self.distance(reference)),
            None => None,
        }
    }

    /// What a location fills a scalar with.
    fn location_in(
        &mut self,
        scope: &Scope<'_>,
        scalar: ScalarType,
        location: &plm_syntax::Location<'_>,
    ) -> Result<Option<Datum>, AllocError>
        ensures { IfOk result (λ r. (r, known_of self.new) ≡ spec.location_in (frames_of scope.now) scalar (tree.location_of location.now) (known_of self.old)) }
    {
        let form = match location {
            plm_syntax::Location::Reference(_, form, _) => *form,
            plm_syntax::Location::Constants(_, form, _) => *form,
        };
        let location = self.location(location, scope)?;
        let datum = self.location_datum(&location);
        self.locations.push(DeclaredLocation {
            module: self.module,
            location,
        })?;
        Ok(if takes(scalar, form) { datum } else { None })
    }

    /// What a value fills a scalar with, if it fits.
    fn datum(
        &mut self,
        scope: &Scope<'_>,
        scalar: ScalarType,
        value: &Value<'_>,
    ) -> Result<Option<Datum>, AllocError>
        ensures { IfOk result (λ r. (r, known_of self.new) ≡ spec.datum_for (frames_of scope.now) scalar (value_of value.now) (known_of self.old)) }
    {
        match value {
            Value::Numeral(number) => Ok(number_datum(scalar, number.value, false)),
            Value::Negative(number) => Ok(number_datum(scalar, number.value, true)),
            Value::Text(text) => Ok(text_datum(scalar, &string_value(self.alloc, text.text)?)),
            Value::Location(location) => self.location_in(scope, scalar, location),
        }
    }

    /// Gives an object one more initial value.
    fn give_object(&mut self, object: usize, datum: Datum) -> Result<(), AllocError>
        ensures { OnOk result (known_of self.new ≡ spec.given_at object datum (slice_get (known_of self.old).objects object) (known_of self.old)) }
    {
        if let Some(given) = self.objects.get_mut(object) {
            given.initial.push(datum)?;
        }
        Ok(())
    }

    /// Gives a variable's object one more initial value.
    fn give(&mut self, variable: usize, datum: Datum) -> Result<(), AllocError>
        ensures { OnOk result (known_of self.new ≡ spec.given variable datum (known_of self.old)) }
    {
        match self.variables.get(variable) {
            Some(variable) => match variable.region {
                Region::Ram(object, _) => self.give_object(object, datum),
                Region::Screen(..) | Region::Based(_) | Region::Nowhere => Ok(()),
            },
            None => Ok(()),
        }
    }

    /// Gives the name of this number among those that are filled one more initial value.
    fn put_datum(
        &mut self,
        filling: Filling<'_, '_>,
        number: usize,
        name: &SyntaxVariable<'_>,
        datum: Option<Datum>,
    ) -> Result<(), AllocError>
        ensures { OnOk result (known_of self.new ≡ spec.put_datum (filling_of filling.entry) number (variable_of name.now) datum (known_of self.old)) }
    {
        match datum {
            Some(datum) => self.give(filling.number.saturating_add(number), datum),
            None => self.note(Number::E305, name.name.place),
        }
    }

    /// How many scalars a name has.
    fn scalars_in_name(&self, shape: Shape) -> u64
        ensures { result ≡ spec.scalars_in_name (known_of self.now) shape }
    {
        self.scalars(shape.form)
            .saturating_mul(elements(shape.dimension))
    }

    /// Notes that there is a value too many for these names.
    fn note_too_many(&mut self, names: &[SyntaxVariable<'_>]) -> Result<(), AllocError>
        ensures { OnOk result (known_of self.new ≡ spec.too_many (slice_get (map variable_of names.now) (length names.now - 1)) (known_of self.old)) }
    {
        match names.last() {
            Some(last) => self.note(Number::E305, last.name.place),
            None => Ok(()),
        }
    }

    /// The name at the cursor, if it has a scalar there.
    fn name_at<'f, 'a>(
        &self,
        filling: Filling<'f, 'a>,
        cursor: Cursor,
    ) -> Option<&'f SyntaxVariable<'a>>
        ensures name { option_map (λ n. variable_of n.now) result ≡ spec.name_at (filling_of filling.entry) cursor (known_of self.now) }
        ensures within { OnSome result (cursor.name < length filling.entry.names.now) }
    {
        if cursor.scalar < self.scalars_in_name(filling.shape) {
            filling.names.get(cursor.name)
        } else {
            None
        }
    }

    /// Fills the scalar at the cursor, and answers the next one. A value too many does not fit the last name.
    fn put(
        &mut self,
        filling: Filling<'_, '_>,
        cursor: Cursor,
        datum: Option<Datum>,
    ) -> Result<Cursor, AllocError>
        ensures { IfOk result (λ r. (r, known_of self.new) ≡ spec.put_value (filling_of filling.entry) cursor datum (known_of self.old)) }
    {
        match self.name_at(filling, cursor) {
            Some(name) => {
                self.put_datum(filling, cursor.name, name, datum)?;
                Ok(cursor.after(self.scalars_in_name(filling.shape)))
            }
            None => {
                self.note_too_many(filling.names)?;
                Ok(cursor)
            }
        }
    }

    /// Notes that a value which begins at the cursor stands after the last element: an empty string, too, is one too many there.
    fn note_past(&mut self, filling: Filling<'_, '_>, cursor: Cursor) -> Result<(), AllocError>
        ensures { OnOk result (known_of self.new ≡ spec.unless_past (filling_of filling.entry) cursor (known_of self.old)) }
    {
        match self.name_at(filling, cursor) {
            Some(_) => Ok(()),
            None => self.note_too_many(filling.names),
        }
    }

    /// Fills a BYTE with each character of a string.
    fn put_characters(
        &mut self,
        filling: Filling<'_, '_>,
        cursor: Cursor,
        characters: &[u8],
    ) -> Result<Cursor, AllocError>
        ensures { IfOk result (λ r. (r, known_of self.new) ≡ spec.put_characters (filling_of filling.entry) cursor characters.now (known_of self.old)) }
    {
        let mut cursor = cursor;
        for character in characters {
            let scalar = self.scalar_at(filling.shape.form, cursor.scalar);
            cursor = self.put(filling, cursor, character_datum(scalar, *character))?;
        }
        Ok(cursor)
    }

    /// Fills the scalar at the cursor with a value.
    fn put_single(
        &mut self,
        scope: &Scope<'_>,
        filling: Filling<'_, '_>,
        cursor: Cursor,
        value: &Value<'_>,
    ) -> Result<Cursor, AllocError>
        ensures { IfOk result (λ r. (r, known_of self.new) ≡ spec.put_single (frames_of scope.now) (filling_of filling.entry) cursor (value_of value.now) (known_of self.old)) }
    {
        let scalar = self.scalar_at(filling.shape.form, cursor.scalar);
        let datum = self.datum(scope, scalar, value)?;
        self.put(filling, cursor, datum)
    }

    /// Fills with a value from the cursor on.
    fn value(
        &mut self,
        scope: &Scope<'_>,
        filling: Filling<'_, '_>,
        cursor: Cursor,
        value: &Value<'_>,
    ) -> Result<Cursor, AllocError>
        ensures { IfOk result (λ r. (r, known_of self.new) ≡ spec.filled_with (frames_of scope.now) (filling_of filling.entry) cursor (value_of value.now) (known_of self.old)) }
    {
        match value {
            Value::Text(text) => {
                if !self.scalar_at(filling.shape.form, cursor.scalar).is_byte() {
                    return self.put_single(scope, filling, cursor, value);
                }
                let characters = string_value(self.alloc, text.text)?;
                self.note_past(filling, cursor)?;
                self.put_characters(filling, cursor, &characters)
            }
            Value::Numeral(_) | Value::Negative(_) | Value::Location(_) => self.put_single(
                scope, filling, cursor, value,
            ),
        }
    }

    /// Fills an element's names with values, in order.
    pub fn fill(
        &mut self,
        scope: &Scope<'_>,
        filling: Filling<'_, '_>,
        values: &[Value<'_>],
    ) -> Result<(), AllocError>
        ensures { OnOk result (known_of self.new ≡ spec.filled (frames_of scope.now) (filling_of filling.entry) (map value_of values.now) (known_of self.old)) }
    {
        let mut cursor = Cursor { name: 0, scalar: 0 };
        for value in values {
            cursor = self.value(scope, filling, cursor, value)?;
        }
        Ok(())
    }
}
