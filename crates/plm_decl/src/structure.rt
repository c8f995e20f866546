//! The members of a structure, in their order and by name.

ghost use Rattle.std.specs.Prelude.{◌≡◌, map};
ghost use Rattle.plm_decl.specs.Inner.Members.{Tells};
ghost use Rattle.plm_decl.specs.Inner.Structure.{scalars_before, scalars_after};
ghost use Rattle.std.proofs.Props.{props};

use crate::layout::Field;
use crate::members::MemberTable;

/// The members of a structure, which stand without gaps.
#[derive(Drop)]
pub struct Structure {
    pub fields: Vec<Field>,
    /// How many bytes they have together.
    pub size: u64,
    /// How many scalars they have together.
    pub scalars: u64,
    pub(crate) by_name: MemberTable,
    ghost told: { Tells by_name fields.items } by { Prim.hlevel props },
    ghost counted: { map (λ f. f.scalars_before) fields.items ≡ scalars_before 0 fields.items },
    ghost summed: { scalars ≡ scalars_after 0 fields.items },
}
