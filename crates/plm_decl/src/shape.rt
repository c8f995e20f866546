//! The types of declarations: structures, dimensions and sizes.

ghost use Rattle.std.specs.Prelude.{◌≡◌, ◌+◌, ◌*◌, IfOk, OnOk, map, length, option_map, true, Some};
ghost use Rattle.plm_syntax.specs.View.{name_of, counted as number_view, member_of, type_of, dimension_of, value_of};
ghost use Rattle.plm_decl.specs.Lists.{member_list};
ghost use Rattle.plm_decl.specs.Layout.{structure_of, counted, elements, is_dimension, scalar_in, with_field, has_field, field_named, scalar_of, no_fields, field_of};
ghost use Rattle.plm_decl.specs.Inner.Resolver.{known_of};
ghost use Rattle.plm_decl.specs.Shape as shape;
ghost use Rattle.plm_decl.specs.Inner.Shape.{names_of_member};
ghost use Rattle.plm_decl.specs.Inner.Structure.{begins_by};

use crate::layout::{Field, Form, Member, ScalarType};
use crate::members::MemberTable;
use crate::resolver::Resolver;
use crate::structure::Structure;
use plm_syntax::{
    Dimension, Member as SyntaxMember, MemberNames, Name, Numeral, Position, Value, VariableType,
};
use plm_token::{normal, string_value};
use std::alloc::{AllocError, Global};
use std::slice;
use word86::Number;

/// The most elements that a dimension may give.
const DIMENSION_LIMIT: u64 = 65_535;

/// What an element's names have in common: the form and the number of their elements, and the bytes of one.
#[derive(Clone, Copy)]
pub struct Shape {
    pub form: Form,
    pub dimension: Option<u32>,
    pub stride: u64,
}

/// How many elements there are.
pub fn elements(dimension: Option<u32>) -> u64
    ensures { result ≡ elements dimension }
{
    match dimension {
        Some(count) => u64::from(count),
        None => 1,
    }
}

/// Whether a dimension may be this number.
fn is_dimension(number: u64) -> bool
    ensures { result ≡ is_dimension number }
{
    1 <= number && number <= DIMENSION_LIMIT
}

/// The names of a member.
fn member_names<'m, 'a>(names: &'m MemberNames<'a>) -> &'m [Name<'a>]
    ensures { map name_of result.now ≡ names_of_member names.now }
{
    match names {
        MemberNames::One(name) => slice::from_ref(name),
        MemberNames::List(names) => names.as_slice(),
    }
}

impl Shape {
    /// How many bytes a variable has.
    pub fn size(self) -> u64
        ensures { result ≡ shape.size_of_shape self }
    {
        self.stride.saturating_mul(elements(self.dimension))
    }
}

impl Field {
    /// Whether it begins at this scalar of its structure or before it. One that begins past all numbers does not.
    fn begins_by(&self, position: u64) -> bool
        ensures { result ≡ begins_by self.now position }
    {
        self.scalars_before <= position && self.scalars_before < u64::MAX
    }
}

impl Structure {
    /// A structure without members.
    pub(crate) fn new(alloc: Global) -> Structure
        ensures { structure_of result ≡ no_fields }
    {
        Structure {
            fields: Vec::new(alloc),
            size: 0,
            scalars: 0,
            by_name: MemberTable::new(alloc),
        }
    }

    /// The member of this name in normal form.
    pub fn member(&self, name: &[u8]) -> Option<Member>
        ensures { result ≡ field_named name.now (structure_of self.now).fields }
    {
        self.by_name.find(name)
    }

    /// The members from the last one on that begins at or before this scalar, as a binary search finds it, and how many
    /// scalars after its first this one stands.
    fn members_from(&self, position: u64) -> (&[Field], u64)
        ensures { scalar_in (map field_of result.0.now) result.1 ≡ scalar_in (structure_of self.now).fields position }
    {
        let begun = self
            .fields
            .partition_point(|field| field.scalars_before <= position);
        let (_, members) = self.fields.split_at(begun.saturating_sub(1));
        match members.first() {
            Some(field) => {
                if field.begins_by(position) {
                    (members, position - field.scalars_before)
                } else {
                    (self.fields.as_slice(), position)
                }
            }
            None => (self.fields.as_slice(), position),
        }
    }

    /// The scalar that stands this many scalars after the first.
    fn scalar_at(&self, position: u64) -> ScalarType
        ensures { result ≡ scalar_in (structure_of self.now).fields position }
    {
        let (members, mut left) = self.members_from(position);
        for field in members {
            let count = elements(field.member.dimension);
            if left < count {
                return field.member.scalar;
            }
            left -= count;
        }
        ScalarType::Byte
    }

    /// The scalar that stands this many scalars after the first of structures one behind the other.
    fn scalar_in_row(&self, position: u64) -> ScalarType
        ensures { result ≡ shape.scalar_of_structure (structure_of self.now) position }
    {
        if self.scalars > 0 {
            self.scalar_at(position % self.scalars)
        } else {
            ScalarType::Byte
        }
    }

    /// Puts a member after the others.
    fn add(
        &mut self,
        name: Vec<u8>,
        scalar: ScalarType,
        dimension: Option<u32>,
    ) -> Result<(), AllocError>
        ensures { OnOk result (structure_of self.new ≡ with_field name.items scalar dimension (structure_of self.old)) }
    {
        let member = Member {
            scalar,
            dimension,
            offset: self.size,
        };
        let key = Vec::from_slice(*name.allocator(), name.as_slice())?;
        self.fields.reserve(1)?;
        self.by_name.add(key, member)?;
        let field = Field {
            name,
            member,
            scalars_before: self.scalars,
        };
        match self.fields.push(field) {
            Ok(()) => {}
            Err(_) => unreachable!(),
        }
        let count = elements(dimension);
        self.size = self
            .size
            .saturating_add(count.saturating_mul(scalar.size()));
        self.scalars = self.scalars.saturating_add(count);
        Ok(())
    }

    /// Whether it has a member of this name.
    fn has(&self, name: &[u8]) -> bool
        ensures { result ≡ has_field name.now (structure_of self.now).fields }
    {
        self.member(name).is_some()
    }
}

impl Resolver {
    /// A dimension that holds, or a fault at this place: then it counts as 1.
    fn dimension_if(&mut self, holds: bool, count: u64, place: Position) -> Result<u32, AllocError>
        requires { holds ≡ true → is_dimension count ≡ true }
        ensures { IfOk result (λ n. (Some n, known_of self.new) ≡ shape.dimension_if holds count place (known_of self.old)) }
    {
        self.note_unless(holds, Number::E305, place)?;
        Ok(if holds { count as u32 } else { 1 })
    }

    /// A dimension that is a number; the fault stands at this place.
    fn number_of_elements(
        &mut self,
        place: Position,
        number: Option<Numeral>,
    ) -> Result<Option<u32>, AllocError>
        ensures { IfOk result (λ r. (r, known_of self.new) ≡ shape.number_of_elements place (number_view number) (known_of self.old)) }
    {
        match number {
            Some(number) => {
                let count = u64::from(number.value);
                let dimension = self.dimension_if(is_dimension(count), count, place)?;
                Ok(Some(dimension))
            }
            None => Ok(None),
        }
    }

    /// The names of one type among a structure's members.
    #[tactic(auto, using(crate::proofs::ListViews::with_members_is))]
    fn add_members(
        &mut self,
        place: Position,
        member: &SyntaxMember<'_>,
        structure: &mut Structure,
    ) -> Result<(), AllocError>
        ensures { OnOk result ((structure_of structure.new, known_of self.new) ≡ shape.with_members place (member_of member.now) (structure_of structure.old) (known_of self.old)) }
    {
        let dimension = self.number_of_elements(place, member.count)?;
        for name in member_names(&member.names) {
            let key = normal(self.alloc, name.text)?;
            self.note_unless(!structure.has(&key), Number::E302, name.place)?;
            structure.add(key, ScalarType::of(member.scalar), dimension)?;
        }
        Ok(())
    }

    /// A structure with these members; a fault of their dimensions stands at this place.
    fn structure_with(
        &mut self,
        place: Position,
        members: &[SyntaxMember<'_>],
    ) -> Result<Structure, AllocError>
        ensures { IfOk result (λ s. (structure_of s, known_of self.new) ≡ shape.structure_for place (map member_of members.now) no_fields (known_of self.old)) }
    {
        let mut structure = Structure::new(self.alloc);
        for member in members {
            self.add_members(place, member, &mut structure)?;
        }
        Ok(structure)
    }

    /// What an element is; a fault of its dimensions stands at the first of its names.
    #[tactic(auto, using(crate::proofs::ListViews::member_list_from))]
    pub fn form(&mut self, place: Position, form: &VariableType<'_>) -> Result<Form, AllocError>
        ensures { IfOk result (λ r. (r, known_of self.new) ≡ shape.form_for place (type_of form.now) (known_of self.old)) }
    {
        match form {
            VariableType::Scalar(scalar) => Ok(Form::Scalar(ScalarType::of(*scalar))),
            VariableType::Structure(members) => {
                let structure = self.structure_with(place, members)?;
                let number = self.structures.len();
                self.structures.push(structure)?;
                Ok(Form::Structure(number))
            }
        }
    }

    /// How many bytes an element has.
    pub fn stride(&self, form: Form) -> u64
        ensures { result ≡ shape.stride_of (known_of self.now) form }
    {
        match form {
            Form::Scalar(scalar) => scalar.size(),
            Form::Structure(number) => match self.structures.get(number) {
                Some(structure) => structure.size,
                None => 0,
            },
        }
    }

    /// How many scalars an element has.
    pub fn scalars(&self, form: Form) -> u64
        ensures { result ≡ shape.scalars_of (known_of self.now) form }
    {
        match form {
            Form::Scalar(_) => 1,
            Form::Structure(number) => match self.structures.get(number) {
                Some(structure) => structure.scalars,
                None => 0,
            },
        }
    }

    /// The scalar that stands this many scalars after the first of a variable.
    pub fn scalar_at(&self, form: Form, position: u64) -> ScalarType
        ensures { result ≡ shape.scalar_at (known_of self.now) form position }
    {
        match form {
            Form::Scalar(scalar) => scalar,
            Form::Structure(number) => match self.structures.get(number) {
                Some(structure) => structure.scalar_in_row(position),
                None => ScalarType::Byte,
            },
        }
    }

    /// How many scalars a value fills: a string fills a BYTE with each of its characters.
    fn scalars_filled(
        &self,
        form: Form,
        position: u64,
        value: &Value<'_>,
    ) -> Result<u64, AllocError>
        ensures { IfOk result (λ n. n ≡ shape.scalars_filled (known_of self.now) form position (value_of value.now)) }
    {
        match value {
            Value::Text(text) => if self.scalar_at(form, position).is_byte() {
                Ok(string_value(self.alloc, text.text)?.len() as u64)
            } else {
                Ok(1)
            },
            Value::Numeral(_) | Value::Negative(_) | Value::Location(_) => Ok(1),
        }
    }

    /// How many elements values fill.
    fn elements_filled(&self, form: Form, values: &[Value<'_>]) -> Result<u64, AllocError>
        ensures { IfOk result (λ n. n ≡ shape.elements_filled (known_of self.now) form (map value_of values.now)) }
    {
        let mut filled: u64 = 0;
        for value in values {
            filled = filled.saturating_add(self.scalars_filled(form, filled, value)?);
        }
        let scalars = self.scalars(form);
        if scalars == 0 {
            return Ok(0);
        }
        let whole = filled / scalars;
        Ok(if filled % scalars == 0 {
            whole
        } else {
            whole + 1
        })
    }

    /// The dimension of an element's names; a fault stands at the first of them. `(*)` is for one name, with values.
    pub fn dimension(
        &mut self,
        place: Position,
        names: usize,
        dimension: &Dimension,
        form: Form,
        values: &[Value<'_>],
    ) -> Result<Option<u32>, AllocError>
        ensures { IfOk result (λ r. (r, known_of self.new) ≡ shape.dimension_for place names (dimension_of dimension.now) form (map value_of values.now) (known_of self.old)) }
    {
        match dimension {
            Dimension::None => Ok(None),
            Dimension::Numeral(number) => self.number_of_elements(place, Some(*number)),
            Dimension::Implicit => {
                let count = self.elements_filled(form, values)?;
                let holds = names == 1 && is_dimension(count);
                let dimension = self.dimension_if(holds, count, place)?;
                Ok(Some(dimension))
            }
        }
    }

    /// What this many names of an element have in common; a fault stands at the first of them.
    pub fn shape(
        &mut self,
        place: Position,
        names: usize,
        dimension: &Dimension,
        form: &VariableType<'_>,
        values: &[Value<'_>],
    ) -> Result<Shape, AllocError>
        ensures { IfOk result (λ r. (r, known_of self.new) ≡ shape.shape_for place names (dimension_of dimension.now) (type_of form.now) (map value_of values.now) (known_of self.old)) }
    {
        let form = self.form(place, form)?;
        let dimension = self.dimension(place, names, dimension, form, values)?;
        Ok(Shape {
            form,
            dimension,
            stride: self.stride(form),
        })
    }
}
