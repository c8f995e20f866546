//! What a reference to a variable designates: whether it has the variable's shape, the type and the size of what it names, and
//! where that lies.

ghost use Rattle.std.specs.Prelude.{◌≡◌, ◌+◌, nat_le, option_map};
ghost use Rattle.word86.specs.Place.{where_of};
ghost use Rattle.plm_decl.specs.Layout as layout;
ghost use Rattle.plm_decl.specs.ResolvedView.{selector_of};
ghost use Rattle.plm_type.specs.Shapes as spec;
ghost use Rattle.plm_type.specs.View as view;

use crate::program::{Anchor, Expression, Reference, Scalar, Target};
use crate::types::width_of;
use plm_decl::{Form, Region, ScalarType, Selector, Variable};
use word86::Place;

/// What has a dimension wants one subscript, which may be missing in a part.
fn subscripts_fit(part: bool, dimension: Option<u32>, count: usize) -> bool
    ensures { result ≡ spec.subscripts_fit part dimension count }
{
    match dimension {
        None => count == 0,
        Some(_) => count == 1 || (part && count == 0),
    }
}

/// A structure wants one of its members, which may be missing in a part; a scalar has none.
fn selector_fits(part: bool, form: Form, selector: &Selector) -> bool
    ensures { result ≡ spec.selector_fits part form (selector_of selector.now) }
{
    match (form, selector) {
        (Form::Scalar(_), Selector::None) => true,
        (Form::Scalar(_), Selector::Member(_, _) | Selector::Element(_, _, _)) => false,
        (Form::Structure(_), Selector::None) => part,
        (Form::Structure(_), Selector::Member(_, Some(member))) => {
            subscripts_fit(part, member.dimension, 0)
        }
        (Form::Structure(_), Selector::Element(_, Some(member), _)) => {
            subscripts_fit(part, member.dimension, 1)
        }
        (Form::Structure(_), Selector::Member(_, None) | Selector::Element(_, None, _)) => false,
    }
}

/// Whether a reference with `count` subscripts and this selector has the shape of the variable: of a whole one, or of a
/// part that a location, LENGTH, LAST or SIZE may name.
pub fn shape_fits(part: bool, variable: &Variable, count: usize, selector: &Selector) -> bool
    ensures { result ≡ spec.shape_fits part variable.now count (selector_of selector.now) }
{
    subscripts_fit(part, variable.dimension, count) && selector_fits(part, variable.form, selector)
}

/// The scalar's type; a structure has none.
pub fn form_type(form: Form) -> Option<ScalarType>
    ensures { result ≡ spec.form_type form }
{
    match form {
        Form::Scalar(scalar) => Some(scalar),
        Form::Structure(_) => None,
    }
}

/// The type of the scalar that is designated.
pub fn designated(variable: &Variable, selector: &Selector) -> Option<ScalarType>
    ensures { result ≡ spec.designated variable.now (selector_of selector.now) }
{
    match selector {
        Selector::None => form_type(variable.form),
        Selector::Member(_, Some(member)) => Some(member.scalar),
        Selector::Element(_, Some(member), _) => Some(member.scalar),
        Selector::Member(_, None) | Selector::Element(_, None, _) => None,
    }
}

/// How many elements there are.
fn elements(dimension: Option<u32>) -> u64
    ensures { result ≡ layout.elements dimension }
{
    match dimension {
        Some(count) => u64::from(count),
        None => 1,
    }
}

/// How many bytes the variable's declaration takes.
fn span(variable: &Variable) -> u64
    ensures { result ≡ spec.span variable.now }
{
    variable.stride.saturating_mul(elements(variable.dimension))
}

/// How many elements a reference stands for.
pub fn element_count(variable: &Variable, count: usize, selector: &Selector) -> u64
    ensures { result ≡ spec.element_count variable.now count (selector_of selector.now) }
{
    match selector {
        Selector::None if count == 0 => elements(variable.dimension),
        Selector::Member(_, Some(member)) => elements(member.dimension),
        Selector::None | Selector::Member(_, None) | Selector::Element(_, _, _) => 1,
    }
}

/// How many bytes each of these elements has.
pub fn element_size(variable: &Variable, selector: &Selector) -> u64
    ensures { result ≡ spec.element_size variable.now (selector_of selector.now) }
{
    match selector {
        Selector::None => variable.stride,
        Selector::Member(_, Some(member)) => member.scalar.size(),
        Selector::Element(_, Some(member), _) => member.scalar.size(),
        Selector::Member(_, None) | Selector::Element(_, None, _) => 0,
    }
}

/// How many bytes of its structure stand before a member.
pub fn member_offset(selector: &Selector) -> u64
    ensures { result ≡ spec.member_offset (selector_of selector.now) }
{
    match selector {
        Selector::Member(_, Some(member)) => member.offset,
        Selector::Element(_, Some(member), _) => member.offset,
        Selector::None | Selector::Member(_, None) | Selector::Element(_, None, _) => 0,
    }
}

/// How many bytes an element of a member has.
pub fn member_stride(selector: &Selector) -> u64
    ensures { result ≡ spec.member_stride (selector_of selector.now) }
{
    match selector {
        Selector::Element(_, Some(member), _) => member.scalar.size(),
        Selector::None | Selector::Member(_, _) | Selector::Element(_, None, _) => 0,
    }
}

/// The index of a byte. An object and a page of the screen have fewer bytes than that: no accepted program has a greater index.
fn capped(index: u64) -> u16
    ensures { result ≡ spec.capped index }
{
    u16::try_from(index).unwrap_or(u16::MAX)
}

/// Where a scalar lies that is not based.
fn place_at(region: Region) -> Place
    ensures { where_of result ≡ spec.where_at region }
{
    match region {
        Region::Ram(object, start) => Place::Ram(object, capped(start)),
        Region::Screen(page, start) => Place::Screen(page, capped(start)),
        Region::Based(_) | Region::Nowhere => Place::Ram(0, 0),
    }
}

/// How many bytes a scalar has; a structure is none.
pub fn scalar_size(scalar: Option<ScalarType>) -> u64
    ensures { result ≡ spec.scalar_size scalar }
{
    match scalar {
        Some(scalar) => scalar.size(),
        None => 0,
    }
}

/// Whether it lies in RAM or on a page of the screen.
fn lies_somewhere(region: Region) -> bool
    ensures { result ≡ spec.lies_somewhere region }
{
    match region {
        Region::Ram(_, _) | Region::Screen(_, _) => true,
        Region::Based(_) | Region::Nowhere => false,
    }
}

/// Whether this many bytes of it lie there.
pub fn has_room(bytes: u64, variable: &Variable) -> bool
    ensures { result ≡ spec.has_room bytes variable.now }
{
    lies_somewhere(variable.region) && bytes <= span(variable)
}

/// What a base points to. A base lies somewhere itself, with room for an address.
fn behind(base: Option<Variable>) -> Anchor
    ensures { view.anchor_of result ≡ spec.behind base }
{
    match base {
        Some(base) if has_room(2, &base) => Anchor::Behind(place_at(base.region)),
        Some(_) | None => Anchor::InObject(0, 0, 0),
    }
}

/// Where a variable's bytes begin, and how many they are.
pub fn anchor(variables: &[Variable], variable: &Variable) -> Anchor
    ensures { view.anchor_of result ≡ spec.anchor_for variables.now variable.now }
{
    match variable.region {
        Region::Ram(object, start) => Anchor::InObject(object, start, span(variable)),
        Region::Screen(page, start) => Anchor::OnScreen(page, start, span(variable)),
        Region::Based(base) => behind(variables.get(base).copied()),
        Region::Nowhere => Anchor::InObject(0, 0, 0),
    }
}

/// A variable that is a scalar at a fixed place.
pub fn scalar(variable: &Variable) -> Scalar
    ensures { view.scalar_of result ≡ spec.scalar_for variable.now }
{
    Scalar {
        width: width_of(form_type(variable.form)),
        place: place_at(variable.region),
    }
}

/// Whether it is on a page of the screen.
pub fn is_on_screen(region: Region) -> bool
    ensures { result ≡ spec.is_on_screen region }
{
    match region {
        Region::Screen(_, _) => true,
        Region::Ram(_, _) | Region::Based(_) | Region::Nowhere => false,
    }
}

/// Whether a base says where it lies.
pub fn is_based(region: Region) -> bool
    ensures { result ≡ spec.is_based region }
{
    match region {
        Region::Based(_) => true,
        Region::Ram(_, _) | Region::Screen(_, _) | Region::Nowhere => false,
    }
}

/// Whether this many bytes from an offset on are among those declared. No sum is cut.
fn fits(bytes: u64, offset: u64, size: u64) -> bool
    ensures { result ≡ nat_le (offset + bytes) size }
{
    bytes <= size && offset <= size - bytes
}

/// A place that no subscript and no base moves, where this many bytes are among those declared.
fn fixed_place(bytes: u64, reference: &Reference) -> Option<Place>
    ensures { option_map where_of result ≡ spec.fixed_place bytes (view.reference_of reference.now) }
{
    if !reference.subscripts.is_empty() {
        return None;
    }
    match reference.anchor {
        Anchor::InObject(object, start, size) => fits(bytes, reference.offset, size).then_some(
            Place::Ram(object, capped(start.saturating_add(reference.offset))),
        ),
        Anchor::OnScreen(page, start, size) => fits(bytes, reference.offset, size).then_some(
            Place::Screen(page, capped(start.saturating_add(reference.offset))),
        ),
        Anchor::Behind(_) => None,
    }
}

/// A read of a variable of this type.
pub fn read_of(scalar: ScalarType, reference: Reference) -> Expression
    ensures { view.expression_of result ≡ spec.read_of scalar (view.reference_of reference) }
{
    match fixed_place(scalar.size(), &reference) {
        Some(place) => Expression::Plain(width_of(Some(scalar)), place),
        None => Expression::Variable(width_of(Some(scalar)), reference),
    }
}

/// A store to a variable of this type.
pub fn store_to(scalar: ScalarType, reference: Reference) -> Target
    ensures { view.target_of result ≡ spec.store_to scalar (view.reference_of reference) }
{
    match fixed_place(scalar.size(), &reference) {
        Some(place) => Target::Plain(width_of(Some(scalar)), place),
        None => Target::Variable(width_of(Some(scalar)), reference),
    }
}
