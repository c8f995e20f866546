//! What a declaration says of its names besides their types: PUBLIC, EXTERNAL, AT, INITIAL and DATA.

ghost use Rattle.std.specs.Prelude.{◌≡◌, map};
ghost use Rattle.plm_syntax.specs.View.{attributes_of, value_of};
ghost use Rattle.plm_decl.specs.Attributes as spec;

use crate::shape::Shape;
use plm_syntax::{At, Attributes, Initial, Linkage, Value};

/// What an element's names have in common besides their shape.
#[derive(Clone, Copy)]
pub struct Traits {
    pub shape: Shape,
    pub linkage: Linkage,
    pub is_data: bool,
    pub has_attribute: bool,
}

/// The values of INITIAL or DATA.
#[tactic(auto, using(crate::proofs::ListViews::value_list_from))]
pub fn values<'v, 'a>(attributes: &'v Attributes<'a>) -> &'v [Value<'a>]
    ensures { map value_of result.now ≡ spec.element_values (attributes_of attributes.now) }
{
    match attributes {
        Attributes::External => &[],
        Attributes::Own { initial, .. } => match initial {
            Initial::None => &[],
            Initial::Initial(values) => values.as_slice(),
            Initial::Data(values) => values.as_slice(),
        },
    }
}

fn is_data(attributes: &Attributes<'_>) -> bool
    ensures { result ≡ spec.is_data (attributes_of attributes.now) }
{
    match attributes {
        Attributes::External => false,
        Attributes::Own { initial, .. } => match initial {
            Initial::None | Initial::Initial(_) => false,
            Initial::Data(_) => true,
        },
    }
}

pub fn is_placed(attributes: &Attributes<'_>) -> bool
    ensures { result ≡ spec.is_placed (attributes_of attributes.now) }
{
    match attributes {
        Attributes::External => false,
        Attributes::Own { at, .. } => match at {
            At::None => false,
            At::Numeral(_) | At::Location(_) => true,
        },
    }
}

fn linkage(attributes: &Attributes<'_>) -> Linkage
    ensures { result ≡ spec.linkage_for (attributes_of attributes.now) }
{
    match attributes {
        Attributes::External => Linkage::External,
        Attributes::Own { public: true, .. } => Linkage::Public,
        Attributes::Own { public: false, .. } => Linkage::None,
    }
}

pub fn has_values(attributes: &Attributes<'_>) -> bool
    ensures { result ≡ spec.has_values (attributes_of attributes.now) }
{
    match attributes {
        Attributes::External => false,
        Attributes::Own { initial, .. } => match initial {
            Initial::None => false,
            Initial::Initial(_) | Initial::Data(_) => true,
        },
    }
}

/// What an element's names of this shape have in common.
pub fn traits_with(shape: Shape, attributes: &Attributes<'_>) -> Traits
    ensures { result ≡ spec.traits_for shape (attributes_of attributes.now) }
{
    let linkage = linkage(attributes);
    Traits {
        shape,
        linkage,
        is_data: is_data(attributes),
        has_attribute: linkage != Linkage::None || is_placed(attributes) || has_values(attributes),
    }
}
