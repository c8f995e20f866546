//! Constant subscripts by which an access leaves the bytes that its name's declaration takes.

use crate::linting::Finding;
use crate::linting::constants::constant_value;
use plm_decl::{Member, Reference, Region, Selector, Variable};
use plm_syntax::Position;

/// Addresses are computed modulo this.
const ADDRESSES: u64 = 0x1_0000;

/// How many bytes stand before those of an access in what it is of, and how many it has.
#[derive(Clone, Copy)]
struct Access {
    before: u64,
    bytes: u64,
}

/// The constant that is a reference's subscript; 0 where it has none.
fn subscript_of(reference: &Reference) -> Option<u32> {
    match reference.subscripts.as_slice() {
        [] => Some(0),
        [subscript] => Some(constant_value(subscript)?.value),
        [_, _, ..] => None,
    }
}

/// The access to the element of this number of a member.
fn in_member(member: Option<Member>, number: u32) -> Option<Access> {
    let member = member?;
    let bytes = member.scalar.size();
    let inside = bytes.saturating_mul(u64::from(number));
    Some(Access {
        before: member.offset.saturating_add(inside),
        bytes,
    })
}

/// The access inside an element of a variable, where it can be told.
fn in_element(variable: &Variable, selector: &Selector) -> Option<Access> {
    match selector {
        Selector::None => Some(Access {
            before: 0,
            bytes: variable.stride,
        }),
        Selector::Member(_, member) => in_member(*member, 0),
        Selector::Element(_, member, subscript) => {
            in_member(*member, constant_value(subscript)?.value)
        }
    }
}

/// Whether an access inside the element of this number stays in its variable.
fn stays(variable: &Variable, number: u32, access: Access) -> bool {
    let elements = u64::from(variable.dimension.unwrap_or(1));
    let element = variable.stride.saturating_mul(u64::from(number));
    let first = element.saturating_add(access.before) % ADDRESSES;
    first.saturating_add(access.bytes) <= variable.stride.saturating_mul(elements)
}

/// A subscript that is no element's number.
fn no_element(dimension: Option<u32>, subscript: u32) -> Option<Finding> {
    let count = dimension?;
    (subscript >= count).then_some(Finding::Outside(subscript, count))
}

/// The same of a member's subscript, with its place.
fn no_element_of_member(selector: &Selector) -> Option<(Position, Finding)> {
    match selector {
        Selector::None | Selector::Member(_, _) => None,
        Selector::Element(place, member, subscript) => {
            let dimension = (*member)?.dimension;
            let finding = no_element(dimension, constant_value(subscript)?.value)?;
            Some((*place, finding))
        }
    }
}

/// The subscript by which an access to a variable leaves its bytes, and its place; nothing where that cannot be told. A based variable's
/// access may lie anywhere in an object.
pub(crate) fn outside(variable: &Variable, reference: &Reference) -> Option<(Position, Finding)> {
    match variable.region {
        Region::Based(_) => return None,
        Region::Ram(_, _) | Region::Screen(_, _) | Region::Nowhere => {}
    }
    let number = subscript_of(reference)?;
    let access = in_element(variable, &reference.selector)?;
    if stays(variable, number, access) {
        return None;
    }
    match no_element(variable.dimension, number) {
        Some(finding) => Some((reference.place, finding)),
        None => no_element_of_member(&reference.selector),
    }
}
