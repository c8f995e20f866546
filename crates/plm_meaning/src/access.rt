//! Where a reference's bytes lie.

ghost use Rattle.std.specs.Prelude.{◌≡◌, ◌<◌, Some, slice_index, option_map};
ghost use Rattle.word86.specs.Place.{bytes, covers, held, where_of};
ghost use Rattle.plm_decl.specs.Placement.{sizes_of};
ghost use Rattle.plm_type.specs.Places.{placed, anchored};
ghost use Rattle.plm_type.specs.Next.{address_at};
ghost use Rattle.plm_meaning.specs.Context.{origin_of};
ghost use Rattle.plm_meaning.specs.Inner.Redex.{sizes_in};
ghost use Rattle.plm_meaning.specs.Inner.Owners.{AreOwners};

use plm_decl::{Object, Placement};
use plm_type::{Place, Program};
use word86::{Page, Width};

/// Where a reference's bytes begin, once its base is read.
#[derive(Clone, Copy)]
pub enum Origin {
    /// In a RAM object: its number, the index of the first byte in it, and the size in bytes of what the name declares.
    InObject(usize, u64, u64),
    /// On this page of the screen: how many bytes after the page's first they begin, and the size in bytes of what the name declares.
    OnScreen(Page, u64, u64),
    /// At the address that the base held.
    There(u16),
}

/// The RAM objects and their offsets.
#[derive(Clone, Copy)]
pub struct PlacedObjects<'a> {
    pub offsets: &'a [u16],
    pub objects: &'a [Object],
}

// How many bytes an access has.
fn bytes(width: Width) -> u64
    ensures { result ≡ bytes width }
{
    match width {
        Width::Byte => 1,
        Width::Word => 2,
    }
}

// Whether `count` bytes from `address` on are among the `size` bytes from `first` on.
fn covers(first: u128, size: u64, address: u16, count: u64) -> bool
    ensures { result ≡ covers first size address count }
{
    first <= u128::from(address)
        && u128::from(address) + u128::from(count) <= first + u128::from(size)
}

/// The RAM objects of a program and their offsets.
pub fn placed_objects<'a>(program: &'a Program, placement: &'a Placement) -> PlacedObjects<'a>
    ensures offsets { result.offsets.now ≡ placement.now.offsets.items }
    ensures sizes { sizes_in result ≡ sizes_of program.now.names }
{
    PlacedObjects {
        offsets: placement.offsets(),
        objects: &program.names().objects,
    }
}

impl PlacedObjects<'_> {
    /// The offset of a RAM object: 0 where there is no such object.
    pub fn offset(self, object: usize) -> u16
        ensures { result ≡ slice_index self.entry.offsets.now object }
    {
        match self.offsets.get(object) {
            None => 0,
            Some(offset) => *offset,
        }
    }

    /// The size of a RAM object in bytes: 0 where there is no such object.
    pub fn size(self, object: usize) -> u64
        ensures { result ≡ slice_index (sizes_in self.entry) object }
    {
        match self.objects.get(object) {
            None => 0,
            Some(object) => object.size,
        }
    }

    // The RAM object that holds all the bytes, and the index of the first: it is the owner of that byte.
    fn held(self, owners: &[usize], address: u16, count: u64) -> Option<Place>
        requires owners { AreOwners owners.now self.offsets.now (sizes_in self) }
        requires some { 0 < count }
        ensures { option_map where_of result ≡ held 0 self.entry.offsets.now (sizes_in self.entry) address count }
    {
        let owner = owners[usize::from(address)];
        let offset = self.offset(owner);
        if covers(u128::from(offset), self.size(owner), address, count) {
            Some(Place::Ram(owner, address - offset))
        } else {
            None
        }
    }

    /// The address of a reference whose bytes begin `offset` bytes after its origin, modulo 65,536.
    pub fn address(self, origin: Origin, offset: u64) -> u16
        ensures { Some result ≡ address_at (anchored self.entry.offsets.now (sizes_in self.entry) (origin_of origin)) offset }
    {
        let begin = match origin {
            Origin::InObject(object, start, _) => u128::from(self.offset(object))
                + u128::from(start),
            Origin::OnScreen(page, start, _) => u128::from(page.begins()) + u128::from(start),
            Origin::There(address) => u128::from(address),
        };
        ((begin + u128::from(offset)) % 0x1_0000) as u16
    }

    // The place in a RAM object that begins at this offset.
    fn in_object(
        self,
        width: Width,
        object: usize,
        start: u64,
        size: u64,
        address: u16,
    ) -> Option<Place>
        ensures { option_map where_of result ≡ placed self.entry.offsets.now (sizes_in self.entry) width (origin_of (Origin.InObject object start size)) address }
    {
        let offset = self.offset(object);
        if covers(
            u128::from(offset) + u128::from(start),
            size,
            address,
            bytes(width),
        ) {
            Some(Place::Ram(object, address - offset))
        } else {
            None
        }
    }

    /// The place of an access at an address: none where its bytes do not all lie in what the name declares, or for a based
    /// name in one RAM object.
    pub fn place(
        self,
        owners: &[usize],
        width: Width,
        origin: Origin,
        address: u16,
    ) -> Option<Place>
        requires { AreOwners owners.now self.offsets.now (sizes_in self) }
        ensures { option_map where_of result ≡ placed self.entry.offsets.now (sizes_in self.entry) width (origin_of origin) address }
    {
        match origin {
            Origin::InObject(object, start, size) => self.in_object(
                width, object, start, size, address,
            ),
            Origin::OnScreen(page, start, size) => {
                let begins = page.begins();
                if covers(
                    u128::from(begins) + u128::from(start),
                    size,
                    address,
                    bytes(width),
                ) {
                    Some(Place::Screen(page, address - begins))
                } else {
                    None
                }
            }
            Origin::There(_) => self.held(owners, address, bytes(width)),
        }
    }
}
