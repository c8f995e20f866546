//! Declarations of variables.

ghost use Rattle.std.specs.Prelude.{◌≡◌, IfOk, OnOk, map};
ghost use Rattle.plm_syntax.specs.View.{name_of, base_of, variable_of, declared_of, dimension_of, type_of, attributes_of, element_of};
ghost use Rattle.plm_decl.specs.Inner.Scope.{frames_of};
ghost use Rattle.plm_decl.specs.Inner.Resolver.{known_of};
ghost use Rattle.plm_decl.specs.Regions.{size_at};
ghost use Rattle.plm_decl.specs.Elements as spec;
ghost use Rattle.plm_decl.specs.Inner.Elements.{entered, variable_put, variable_then, with_variables};
ghost use Rattle.plm_decl.specs.Fill as fills;
ghost use Rattle.plm_decl.specs.Inner.Fill.{filling_of};

use crate::attributes::{Traits, has_values, is_placed, traits_with, values};
use crate::fill::Filling;
use crate::layout::{Form, ScalarType};
use crate::names::{Item, Object, Region, ScreenName, Variable};
use crate::parts::append;
use crate::resolved::Binding;
use crate::resolver::Resolver;
use crate::scope::Scope;
use crate::shape::Shape;
use crate::sites::{Site, names_no_place};
use crate::spelling::name_path;
use plm_syntax::{
    Attributes, Declared, Dimension, Element, Linkage, Name, Position, Variable as SyntaxVariable,
    VariableType,
};
use plm_token::normal;
use std::alloc::AllocError;
use std::slice;
use word86::{Number, PAGE_SIZE, Page};

#[tactic(auto, using(crate::proofs::ListViews::variable_list_from))]
fn declared_names<'d, 'a>(declared: &'d Declared<'a>) -> &'d [SyntaxVariable<'a>]
    ensures { map variable_of result.now ≡ spec.declared_list (declared_of declared.now) }
{
    match declared {
        Declared::One(variable) => slice::from_ref(variable),
        Declared::List(variables) => variables.as_slice(),
    }
}

/// Whether elements of this form are plain scalars, WORD or POINTER.
fn is_plain_form(form: Form) -> bool
    ensures { result ≡ spec.is_plain_form form }
{
    match form {
        Form::Scalar(ScalarType::Word | ScalarType::Pointer) => true,
        Form::Scalar(ScalarType::Byte | ScalarType::Integer) | Form::Structure(_) => false,
    }
}

/// Whether it lies where another variable says.
fn is_based(region: Region) -> bool
    ensures { result ≡ spec.is_based region }
{
    match region {
        Region::Based(_) => true,
        Region::Ram(..) | Region::Screen(..) | Region::Nowhere => false,
    }
}

/// Whether a base may be this variable.
fn is_plain_base(variable: &Variable) -> bool
    ensures { result ≡ spec.is_plain_base variable.now }
{
    variable.dimension.is_none() && is_plain_form(variable.form) && !is_based(variable.region)
}

impl Resolver {
    /// Whether a base may be this: a plain scalar, WORD or POINTER, that is not itself based. An undeclared one is no bad one.
    fn is_base(&self, binding: Binding) -> bool
        ensures { result ≡ spec.is_base (known_of self.now) binding }
    {
        match binding {
            Binding::Variable(number) => match self.variables.get(number) {
                Some(variable) => is_plain_base(variable),
                None => false,
            },
            Binding::Procedure(_) | Binding::Builtin(_) => false,
            Binding::Nothing => true,
        }
    }

    /// The region of a based name, and the faults of its base.
    fn base(
        &mut self,
        scope: &Scope<'_>,
        name: &Name<'_>,
        base: &Name<'_>,
        has_attribute: bool,
    ) -> Result<Region, AllocError>
        ensures { IfOk result (λ r. (r, known_of self.new) ≡ spec.base_for (frames_of scope.now) (name_of name.now) (name_of base.now) has_attribute (known_of self.old)) }
    {
        let binding = self.used(scope, base)?;
        let is_base = self.is_base(binding);
        self.note_unless(is_base && !has_attribute, Number::E304, name.place)?;
        match binding {
            Binding::Variable(variable) => Ok(Region::Based(variable)),
            Binding::Procedure(_) | Binding::Builtin(_) | Binding::Nothing => Ok(Region::Nowhere),
        }
    }

    /// Makes a RAM object for a name in normal form.
    fn own_region(
        &mut self,
        scope: &Scope<'_>,
        name: &[u8],
        size: u64,
    ) -> Result<Region, AllocError>
        ensures { IfOk result (λ r. (r, known_of self.new) ≡ spec.own_region (frames_of scope.now) name.now size (known_of self.old)) }
    {
        if scope.is_external() {
            return Ok(Region::Nowhere);
        }
        let object = self.objects.len();
        let path = name_path(self.alloc, scope.path(), name)?;
        let initial = Vec::new(self.alloc);
        append(
            &mut self.objects,
            Object {
                path,
                size,
                initial,
            },
        )?;
        Ok(Region::Ram(object, 0))
    }

    /// The bytes of a RAM object.
    fn object_size(&self, object: usize) -> u64
        ensures { result ≡ size_at (known_of self.now).objects object }
    {
        match self.objects.get(object) {
            Some(object) => object.size,
            None => 0,
        }
    }

    /// Keeps a name on the screen, given in normal form. What an EXTERNAL procedure declares is none of the program's.
    fn put_screen_name(
        &mut self,
        scope: &Scope<'_>,
        name: &[u8],
        size: u64,
        page: Page,
        offset: u64,
    ) -> Result<(), AllocError>
        ensures { OnOk result (known_of self.new ≡ spec.with_screen_name (frames_of scope.now) name.now size page offset (known_of self.old)) }
    {
        if scope.is_external() {
            return Ok(());
        }
        let path = name_path(self.alloc, scope.path(), name)?;
        let objects_before = self.objects.len();
        append(
            &mut self.screen_names,
            ScreenName {
                path,
                size,
                page,
                offset,
                objects_before,
            },
        )?;
        Ok(())
    }

    /// The region of a name that is not based, given in normal form too.
    fn region(
        &mut self,
        scope: &Scope<'_>,
        name: &Name<'_>,
        key: &[u8],
        size: u64,
        site: Site,
    ) -> Result<Region, AllocError>
        ensures { IfOk result (λ r. (r, known_of self.new) ≡ spec.region_for (frames_of scope.now) (name_of name.now) key.now size site (known_of self.old)) }
    {
        match site {
            Site::Own => self.own_region(scope, key, size),
            Site::Nowhere => Ok(Region::Nowhere),
            Site::Outside => {
                self.note(Number::E303, name.place)?;
                Ok(Region::Nowhere)
            }
            Site::Ram(object, offset) => {
                let room = self.object_size(object);
                self.note_unless(
                    offset.saturating_add(size) <= room,
                    Number::E303,
                    name.place,
                )?;
                Ok(Region::Ram(object, offset))
            }
            Site::Screen(page, offset) => {
                self.note_unless(
                    offset.saturating_add(size) <= PAGE_SIZE as u64,
                    Number::E303,
                    name.place,
                )?;
                self.put_screen_name(scope, key, size, page, offset)?;
                Ok(Region::Screen(page, offset))
            }
        }
    }

    /// Declares a name, given in normal form, that stands at this place, and joins it with those of other modules.
    pub fn enter(
        &mut self,
        scope: &mut Scope<'_>,
        place: Position,
        name: Vec<u8>,
        linkage: Linkage,
        item: Item,
    ) -> Result<(), AllocError>
        ensures { OnOk result ((frames_of scope.new, known_of self.new) ≡ entered place name.items linkage item (frames_of scope.old) (known_of self.old)) }
    {
        self.link(scope, linkage, &name, item)?;
        let is_fresh = scope.declare(name, item)?;
        self.note_unless(is_fresh, Number::E302, place)
    }

    /// The region of a name, given in normal form too: its base's, or that of its site.
    fn variable_region(
        &mut self,
        scope: &Scope<'_>,
        variable: &SyntaxVariable<'_>,
        key: &[u8],
        traits: Traits,
        site: Site,
    ) -> Result<Region, AllocError>
        ensures { IfOk result (λ r. (r, known_of self.new) ≡ spec.region_at (frames_of scope.now) (name_of variable.now.name) (base_of variable.now.base) key.now traits site (known_of self.old)) }
    {
        match &variable.base {
            Some(base) => self.base(scope, &variable.name, base, traits.has_attribute),
            None => self.region(scope, &variable.name, key, traits.shape.size(), site),
        }
    }

    /// Keeps a variable that stands at this place, and answers it.
    fn put_variable(
        &mut self,
        place: Position,
        traits: Traits,
        region: Region,
    ) -> Result<Item, AllocError>
        ensures { IfOk result (λ i. (i, known_of self.new) ≡ variable_put traits place region (known_of self.old)) }
    {
        let item = Item::Variable(self.variables.len());
        let Shape {
            form,
            dimension,
            stride,
        } = traits.shape;
        self.variables.push(Variable {
            module: self.module,
            place,
            form,
            dimension,
            stride,
            region,
            is_data: traits.is_data,
        })?;
        Ok(item)
    }

    /// Keeps that AT of the variable of this number names no place, where it does.
    fn put_unplaced(&mut self, unplaced: bool, variable: usize) -> Result<(), AllocError>
        ensures { OnOk result (known_of self.new ≡ spec.with_unplaced unplaced variable (known_of self.old)) }
    {
        if unplaced {
            self.unplaced.push(variable)?;
        }
        Ok(())
    }

    /// Declares a variable, and answers where the next name goes.
    fn variable(
        &mut self,
        scope: &mut Scope<'_>,
        variable: &SyntaxVariable<'_>,
        traits: Traits,
        site: Site,
    ) -> Result<Site, AllocError>
        ensures { IfOk result (λ s. (s, frames_of scope.new, known_of self.new) ≡ variable_then (variable_of variable.now) traits site (frames_of scope.old) (known_of self.old)) }
    {
        let place = variable.name.place;
        let number = self.variables.len();
        let key = normal(self.alloc, variable.name.text)?;
        let region = self.variable_region(scope, variable, &key, traits, site)?;
        let item = self.put_variable(place, traits, region)?;
        self.enter(scope, place, key, traits.linkage, item)?;
        self.put_unplaced(names_no_place(traits.linkage, site), number)?;
        Ok(site.after(traits.shape.size()))
    }

    /// Declares names, one after another from this site on.
    fn declare_names(
        &mut self,
        scope: &mut Scope<'_>,
        names: &[SyntaxVariable<'_>],
        traits: Traits,
        first: Site,
    ) -> Result<(), AllocError>
        ensures { OnOk result ((frames_of scope.new, known_of self.new) ≡ with_variables (map variable_of names.now) traits first (frames_of scope.old) (known_of self.old)) }
    {
        let mut site = first;
        for name in names {
            site = self.variable(scope, name, traits, site)?;
        }
        Ok(())
    }

    /// Fills an element's names, of which the first stands at this place. Values beside AT fill nothing.
    fn fill_element(
        &mut self,
        scope: &Scope<'_>,
        filling: Filling<'_, '_>,
        place: Position,
        attributes: &Attributes<'_>,
    ) -> Result<(), AllocError>
        ensures { OnOk result (known_of self.new ≡ fills.filled_element (filling_of filling.entry) place (attributes_of attributes.now) (frames_of scope.now) (known_of self.old)) }
    {
        if is_placed(attributes) {
            return self.note_unless(!has_values(attributes), Number::E305, place);
        }
        self.fill(scope, filling, values(attributes))
    }

    /// Declares the names of an element, of which the first stands at this place, and fills them.
    fn names(
        &mut self,
        scope: &mut Scope<'_>,
        place: Position,
        names: &[SyntaxVariable<'_>],
        dimension: &Dimension,
        form: &VariableType<'_>,
        attributes: &Attributes<'_>,
    ) -> Result<(), AllocError>
        ensures { OnOk result ((frames_of scope.new, known_of self.new) ≡ fills.declared_at place (map variable_of names.now) (dimension_of dimension.now) (type_of form.now) (attributes_of attributes.now) (frames_of scope.old) (known_of self.old)) }
    {
        let site = self.site(scope, attributes)?;
        let shape = self.shape(place, names.len(), dimension, form, values(attributes))?;
        let number = self.variables.len();
        self.declare_names(scope, names, traits_with(shape, attributes), site)?;
        let filling = Filling {
            names,
            shape,
            number,
        };
        self.fill_element(scope, filling, place, attributes)?;
        Ok(())
    }

    /// An element of a declaration. A literal's name is none of the program's.
    pub fn element(
        &mut self,
        scope: &mut Scope<'_>,
        element: &Element<'_>,
    ) -> Result<(), AllocError>
        ensures { OnOk result ((frames_of scope.new, known_of self.new) ≡ fills.element (element_of element.now) (frames_of scope.old) (known_of self.old)) }
    {
        match element {
            Element::Literal(..) => Ok(()),
            Element::Variable {
                declared,
                dimension,
                form,
                attributes,
            } => {
                let names = declared_names(declared);
                match names.first() {
                    Some(first) => {
                        let place = first.name.place;
                        self.names(scope, place, names, dimension, form, attributes)
                    }
                    None => Ok(()),
                }
            }
        }
    }
}
