//! What the steps of a program look up: what it declares, its procedures, and where its objects lie.

ghost use Rattle.std.specs.Prelude.{◌≡◌, map, Some, option_map, slice_get, slice_index};
ghost use Rattle.plm_type.specs.Next.{parameters_of, body_of, address_at};
ghost use Rattle.word86.specs.Place.{where_of};
ghost use Rattle.plm_type.specs.Places.{placed, anchored};
ghost use Rattle.plm_type.specs.Programs.{main_tree, handler_tree};
ghost use Rattle.plm_type.specs.View.{scalar_of, statements_of};
ghost use Rattle.plm_meaning.specs.Context.{origin_of};
ghost use Rattle.plm_meaning.specs.Around.{names_of};
ghost use Rattle.plm_meaning.specs.Inner.Redex.{offsets_of, sizes_of, sizes_in, procedures_in};

use crate::access::{Origin, PlacedObjects, placed_objects};
use crate::around::Surroundings;
use plm_type::{Place, Scalar, Statement};
use word86::Width;

impl<'a> Surroundings<'a> {
    // The RAM objects and their offsets.
    fn objects(&self) -> PlacedObjects<'a>
        ensures offsets { result.offsets.now ≡ offsets_of self.now }
        ensures sizes { sizes_in result ≡ sizes_of self.now }
    {
        placed_objects(self.program, self.placement)
    }

    /// The offset of a RAM object: 0 where there is no such object.
    pub fn offset(&self, object: usize) -> u16
        ensures { result ≡ slice_index (offsets_of self.now) object }
    {
        self.objects().offset(object)
    }

    /// The address of a reference whose bytes begin `offset` bytes after its origin, modulo 65,536.
    pub fn address(&self, origin: Origin, offset: u64) -> u16
        ensures { Some result ≡ address_at (anchored (offsets_of self.now) (sizes_of self.now) (origin_of origin)) offset }
    {
        self.objects().address(origin, offset)
    }

    /// The place of an access at an address: none where its bytes do not all lie in what the name declares, or for a based
    /// name in one RAM object.
    pub fn place(&self, width: Width, origin: Origin, address: u16) -> Option<Place>
        ensures { option_map where_of result ≡ placed (offsets_of self.now) (sizes_of self.now) width (origin_of origin) address }
    {
        self.objects().place(&self.owners, width, origin, address)
    }

    /// The parameters and the body of a procedure: none where there is no such procedure.
    pub fn procedure(&self, number: usize) -> (&'a [Scalar], &'a [Box<Statement>])
        ensures parameters { map scalar_of result.0.now ≡ parameters_of (slice_get (procedures_in self.now) number) }
        ensures body { statements_of result.1.now ≡ body_of (slice_get (procedures_in self.now) number) }
    {
        match self.program.procedures().get(number) {
            None => (&[], &[]),
            Some(procedure) => (&procedure.parameters, &procedure.body),
        }
    }

    /// What main does.
    pub fn main(&self) -> &'a [Box<Statement>]
        ensures { statements_of result.now ≡ main_tree (names_of self.now) }
    {
        self.program.main()
    }

    /// What the interrupt procedure of a vector does: nothing where there is none.
    pub fn handler(&self, vector: u8) -> &'a [Box<Statement>]
        ensures { statements_of result.now ≡ handler_tree (names_of self.now) vector }
    {
        self.program.handler(vector)
    }
}
