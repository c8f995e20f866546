//! Where AT places the names of a declaration.

ghost use Rattle.std.specs.Prelude.{◌≡◌, IfOk, Some};
ghost use Rattle.plm_syntax.specs.View.{location_of, attributes_of};
ghost use Rattle.plm_decl.specs.Inner.Scope.{frames_of};
ghost use Rattle.plm_decl.specs.Inner.Resolver.{known_of};
ghost use Rattle.plm_decl.specs.ResolvedView as view;
ghost use Rattle.plm_decl.specs.Sites as spec;

use crate::layout::Form;
use crate::names::{DeclaredLocation, Region, Variable};
use crate::resolved::{Binding, Expression, Location, Reference, Selector};
use crate::resolver::Resolver;
use crate::scope::Scope;
use plm_syntax::{At, Attributes, Linkage};
use std::alloc::AllocError;
use word86::{PAGE_SIZE, Page};

/// Where the next name of an element goes.
#[derive(Clone, Copy)]
pub enum Site {
    /// Into an object of its own.
    Own,
    /// Into a RAM object, this many bytes after its first.
    Ram(usize, u64),
    /// Onto a page of the screen, this many bytes after its first.
    Screen(Page, u64),
    /// Nowhere: it is EXTERNAL, or the location of its AT is faulty itself.
    Nowhere,
    /// AT names a place where no name may lie.
    Outside,
}

impl Site {
    /// Where the name after one of this size goes.
    pub fn after(self, size: u64) -> Site
        ensures { result ≡ spec.site_after self size }
    {
        match self {
            Site::Ram(object, offset) => Site::Ram(object, offset.saturating_add(size)),
            Site::Screen(page, offset) => Site::Screen(page, offset.saturating_add(size)),
            Site::Own => Site::Own,
            Site::Nowhere => Site::Nowhere,
            Site::Outside => Site::Outside,
        }
    }

    /// Whether it is nowhere.
    fn is_nowhere(self) -> bool
        ensures { result ≡ spec.is_nowhere self }
    {
        match self {
            Site::Nowhere => true,
            Site::Own | Site::Ram(..) | Site::Screen(..) | Site::Outside => false,
        }
    }
}

/// The byte of this page that has this address, or else the other site.
fn page_site(page: Page, address: u32, other: Site) -> Site
    ensures { result ≡ spec.page_site page address other }
{
    let begins = page.address();
    if begins <= address && address - begins < PAGE_SIZE as u32 {
        Site::Screen(page, u64::from(address - begins))
    } else {
        other
    }
}

/// The byte of the screen that has this address.
fn screen_site(address: u32) -> Site
    ensures { result ≡ spec.screen_site address }
{
    let other = page_site(Page::Colour, address, Site::Outside);
    page_site(Page::Monochrome, address, other)
}

/// A subscript that is a number. A chain without operators is what it begins with.
#[tactic(auto, using(crate::proofs::Chains::chain_number))]
fn number(e: &Expression) -> Option<u64>
    ensures { result ≡ spec.number_in (view.expression_of e.now) }
{
    match e {
        Expression::Number(number) => Some(u64::from(number.value)),
        Expression::Chain { first, others } => if others.is_empty() {
            number(first)
        } else {
            None
        },
        Expression::Text(..)
        | Expression::Reference(_)
        | Expression::Location(_)
        | Expression::Parenthesised(..)
        | Expression::Embedded(..)
        | Expression::Unary(..) => None,
    }
}

/// Whether all subscripts are numbers.
fn are_numbers(subscripts: &[Expression]) -> bool
    ensures { result ≡ spec.are_numbers (view.expressions_of subscripts.now) }
{
    for subscript in subscripts {
        if number(subscript).is_none() {
            return false;
        }
    }
    true
}

/// The first of some subscripts, all of which are numbers; 0 where there is none.
fn first_number(subscripts: &[Expression]) -> Option<u64>
    ensures { result ≡ spec.first_number (view.expressions_of subscripts.now) }
{
    match subscripts {
        [first, others @ ..] if are_numbers(others) => number(first),
        [_, ..] => None,
        [] => Some(0),
    }
}

/// How many bytes of a structure stand before a member's element.
fn member_distance(selector: &Selector) -> Option<u64>
    ensures { result ≡ spec.member_distance (view.selector_of selector.now) }
{
    match selector {
        Selector::None => Some(0),
        Selector::Member(_, None) => Some(0),
        Selector::Member(_, Some(member)) => Some(member.offset),
        Selector::Element(_, None, subscript) => {
            number(subscript)?;
            Some(0)
        }
        Selector::Element(_, Some(member), subscript) => {
            let value = number(subscript)?;
            Some(
                member
                    .offset
                    .saturating_add(value.saturating_mul(member.scalar.size())),
            )
        }
    }
}

/// Whether there are no subscripts.
fn are_none(subscripts: &[Expression]) -> bool
    ensures { result ≡ spec.are_none (view.expressions_of subscripts.now) }
{
    match subscripts {
        [] => true,
        [_, ..] => false,
    }
}

/// Whether something of this dimension may have these subscripts: an array takes one, which may be missing in a location.
fn takes_subscripts(dimension: Option<u32>, subscripts: &[Expression]) -> bool
    ensures { result ≡ spec.takes_subscripts dimension (view.expressions_of subscripts.now) }
{
    match subscripts {
        [] => true,
        [_, others @ ..] => dimension.is_some() && are_none(others),
    }
}

/// Whether something of this form may have this member: a structure takes one of its own, which may be missing in a location.
fn takes_member(form: Form, selector: &Selector) -> bool
    ensures { result ≡ spec.takes_member form (view.selector_of selector.now) }
{
    match (form, selector) {
        (Form::Scalar(_) | Form::Structure(_), Selector::None) => true,
        (Form::Scalar(_), Selector::Member(..) | Selector::Element(..)) => false,
        (Form::Structure(_), Selector::Member(_, member)) => member.is_some(),
        (Form::Structure(_), Selector::Element(_, Some(member), _)) => member.dimension.is_some(),
        (Form::Structure(_), Selector::Element(_, None, _)) => false,
    }
}

/// Whether a location of this variable may have these subscripts and this member.
fn has_shape(variable: &Variable, subscripts: &[Expression], selector: &Selector) -> bool
    ensures { result ≡ spec.has_shape variable.now (view.expressions_of subscripts.now) (view.selector_of selector.now) }
{
    takes_subscripts(variable.dimension, subscripts) && takes_member(variable.form, selector)
}

/// The place this many bytes after the first of a region, which has to lie in RAM.
fn site_within(region: Region, distance: Option<u64>) -> Site
    ensures { result ≡ spec.site_within region distance }
{
    match region {
        Region::Ram(object, offset) => match distance {
            Some(distance) => Site::Ram(object, offset.saturating_add(distance)),
            None => Site::Outside,
        },
        Region::Screen(..) | Region::Based(_) | Region::Nowhere => Site::Outside,
    }
}

/// The place this many bytes after the first of a variable whose AT names no place: none either.
fn unplaced_site(distance: Option<u64>) -> Site
    ensures { result ≡ spec.unplaced_site distance }
{
    match distance {
        Some(_) => Site::Nowhere,
        None => Site::Outside,
    }
}

/// Whether AT of a name of this linkage names no place. An EXTERNAL name goes nowhere too, without AT.
pub fn names_no_place(linkage: Linkage, site: Site) -> bool
    ensures { result ≡ spec.names_no_place linkage site }
{
    match linkage {
        Linkage::External => false,
        Linkage::None | Linkage::Public => site.is_nowhere(),
    }
}

impl Resolver {
    /// How many bytes after the first of its variable a reference lies, where its subscripts are numbers.
    pub fn distance(&self, reference: &Reference) -> Option<u64>
        ensures { result ≡ spec.distance (known_of self.now) (view.reference_of reference.now) }
    {
        let Binding::Variable(variable) = reference.binding else {
            return None;
        };
        let stride = self.variables.get(variable)?.stride;
        let element = first_number(&reference.subscripts)?;
        let inside = member_distance(&reference.selector)?;
        Some(element.saturating_mul(stride).saturating_add(inside))
    }

    /// Whether AT of this variable names no place.
    fn is_unplaced(&self, variable: usize) -> bool
        ensures { result ≡ spec.is_unplaced (known_of self.now) variable }
    {
        self.unplaced.contains(&variable)
    }

    /// The place in a RAM object that a location of this variable names.
    fn variable_site(&self, number: usize, variable: &Variable, reference: &Reference) -> Site
        ensures { result ≡ spec.variable_site (spec.is_unplaced (known_of self.now) number) (Some variable.now) (view.expressions_of reference.now.subscripts.items) (view.selector_of reference.now.selector) (spec.distance (known_of self.now) (view.reference_of reference.now)) }
    {
        let distance = self.distance(reference);
        if !has_shape(variable, &reference.subscripts, &reference.selector) {
            Site::Nowhere
        } else if self.is_unplaced(number) {
            unplaced_site(distance)
        } else {
            site_within(variable.region, distance)
        }
    }

    /// The place in a RAM object that a location names. One that is faulty itself (E301, or E401 for its shape) places
    /// nothing, and so does one in a variable that such a location placed nowhere.
    fn site_of(&self, reference: &Reference) -> Site
        ensures { result ≡ spec.site_of (known_of self.now) (view.reference_of reference.now) }
    {
        match reference.binding {
            Binding::Variable(number) => match self.variables.get(number) {
                Some(variable) => self.variable_site(number, variable, reference),
                None => Site::Outside,
            },
            Binding::Procedure(_) | Binding::Builtin(_) => Site::Outside,
            Binding::Nothing => Site::Nowhere,
        }
    }

    /// The place that a location of AT names.
    fn location_site(
        &mut self,
        scope: &Scope<'_>,
        location: &plm_syntax::Location<'_>,
    ) -> Result<Site, AllocError>
        ensures { IfOk result (λ r. (r, known_of self.new) ≡ spec.location_site (frames_of scope.now) (location_of location.now) (known_of self.old)) }
    {
        match location {
            plm_syntax::Location::Constants(..) => Ok(Site::Outside),
            plm_syntax::Location::Reference(place, form, reference) => {
                let reference = self.reference(reference, scope)?;
                let site = self.site_of(&reference);
                let location = Location::Reference(*place, *form, reference);
                self.locations.push(DeclaredLocation {
                    module: self.module,
                    location,
                })?;
                Ok(site)
            }
        }
    }

    /// Where an element's first name goes.
    pub fn site(
        &mut self,
        scope: &Scope<'_>,
        attributes: &Attributes<'_>,
    ) -> Result<Site, AllocError>
        ensures { IfOk result (λ r. (r, known_of self.new) ≡ spec.first_site (frames_of scope.now) (attributes_of attributes.now) (known_of self.old)) }
    {
        match attributes {
            Attributes::External => Ok(Site::Nowhere),
            Attributes::Own { at, .. } => match at {
                At::None => Ok(Site::Own),
                At::Numeral(number) => Ok(screen_site(number.value)),
                At::Location(location) => self.location_site(scope, location),
            },
        }
    }
}
