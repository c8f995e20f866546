//! The parameters of an EXTERNAL procedure, in their order and by name.

ghost use Rattle.plm_decl.specs.Inner.Parameters.{Tells};
ghost use Rattle.std.proofs.Props.{props};

use crate::table::Table;
use plm_syntax::Name;
use std::alloc::Global;

/// The parameters of a procedure.
#[derive(Drop)]
pub struct Parameters<'p, 'a> {
    pub alloc: Global,
    pub names: &'p [Name<'a>],
    /// Each name in normal form; what it stands for is not told.
    pub by_name: Table,
    ghost told: { Tells by_name names.now } by { Prim.hlevel props },
}
