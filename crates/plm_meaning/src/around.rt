//! What stands around the steps of a program: the program, and where its objects lie.

ghost use Rattle.std.specs.Prelude.{◌≡◌, IfOk};
ghost use Rattle.plm_decl.specs.Placement.{IsPlacement, sizes_of};
ghost use Rattle.plm_meaning.specs.Inner.Owners.{AreOwners};

use crate::access::placed_objects;
use crate::owners::owners_of;
use plm_decl::Placement;
use plm_type::Program;
use std::alloc::{AllocError, Global};

/// A program, where its objects lie, and for each address the RAM object that has the byte there.
#[derive(Drop)]
pub struct Surroundings<'a> {
    pub program: &'a Program,
    pub placement: &'a Placement,
    pub owners: Vec<usize>,
    ghost owned: { AreOwners owners.items placement.now.offsets.items (sizes_of program.now.names) },
}

impl<'a> Surroundings<'a> {
    /// The surroundings of a run: the owners of all bytes are found once.
    pub fn new(
        alloc: Global,
        program: &'a Program,
        placement: &'a Placement,
    ) -> Result<Surroundings<'a>, AllocError>
        requires { IsPlacement placement.now.offsets.items (sizes_of program.now.names) }
        ensures { IfOk result (λ s. (s.program.now ≡ program.now) × (s.placement.now ≡ placement.now)) }
    {
        let owners = owners_of(alloc, placed_objects(program, placement))?;
        Ok(Surroundings {
            program,
            placement,
            owners,
        })
    }
}
