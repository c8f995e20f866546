//! A program with its image.

ghost use Rattle.plm_decl.specs.Placement.{IsPlacement, sizes_of};

use layout_link::Image;
use plm_type::Program;

/// A program and the image that it was built to.
#[derive(Drop)]
pub(crate) struct Built {
    pub program: Program,
    pub image: Image,
    // The image places the program's objects.
    ghost placed: { IsPlacement image.placement.offsets.items (sizes_of program.names) },
}
