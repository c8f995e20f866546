//! What the modules of a program declare: objects in RAM, names on the screen, views of bytes, procedures, and the
//! statements with all names resolved.
#![tactic(auto)]

mod attributes;
mod builtin;
mod constants;
mod datum;
mod elements;
mod expressions;
mod fill;
pub mod found;
mod joins;
mod laws;
mod layout;
mod linkage;
mod members;
mod modules;
mod names;
mod parameters;
mod parts;
mod placement;
mod procedures;
mod resolved;
mod resolver;
mod scope;
mod shape;
mod sites;
mod spelling;
mod statements;
mod stray;
mod structure;
mod table;

pub use builtin::Builtin;
pub use laws::{
    constants_fill_their_object, declared_once, externals_are_joined, initial_values_fit,
    innermost_counts, names_have_own_objects, names_lie_where_at_says,
    resolved_trees_have_their_lists,
};
pub use layout::{Field, Form, Member, ScalarType};
pub use modules::{name_faults, resolve};
pub use names::{
    Datum, DeclaredLocation, Item, Main, Names, Object, Procedure, Region, ScreenName, Variable,
};
pub use placement::Placement;
pub use resolved::{
    Binding, Bounds, Expression, Location, Operation, Reference, Selector, Statement,
};
pub use structure::Structure;
