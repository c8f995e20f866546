//! Where the RAM objects lie, and what lies at an address.

ghost use Rattle.std.specs.Prelude.{◌≡◌, slice_index, option_map};
ghost use Rattle.word86.specs.Place.{bytes, covers, held, where_of};
ghost use Rattle.icode.specs.Machine.{address, found};

use word86::{PAGE_SIZE, Place, Width};

/// The RAM objects' offsets in their segment, and their sizes in bytes.
#[derive(Clone, Copy)]
pub struct RamObjects<'a> {
    pub offsets: &'a [u16],
    pub sizes: &'a [u64],
}

// How many bytes an access has.
fn bytes(width: Width) -> u64
    ensures { result ≡ bytes width }
{
    match width {
        Width::Byte => 1,
        Width::Word => 2,
    }
}

// Whether `count` bytes from the address on are among the `size` bytes from the first on.
fn covers(first: u16, size: u64, address: u16, count: u64) -> bool
    ensures { result ≡ covers first size address count }
{
    first <= address
        && u128::from(address) + u128::from(count) <= u128::from(first) + u128::from(size)
}

impl RamObjects<'_> {
    // The offset of a RAM object: 0 where there is no such object.
    fn offset(self, object: usize) -> u16
        ensures { result ≡ slice_index self.entry.offsets.now object }
    {
        match self.offsets.get(object) {
            None => 0,
            Some(offset) => *offset,
        }
    }

    /// The address `more` bytes after a place, modulo 65,536.
    pub fn address(self, place: Place, more: u16) -> u16
        ensures { result ≡ address self.entry.offsets.now self.entry.sizes.now place more }
    {
        let begin = match place {
            Place::Ram(object, index) => u32::from(self.offset(object)) + u32::from(index),
            Place::Screen(page, index) => u32::from(page.begins()) + u32::from(index),
        };
        ((begin + u32::from(more)) % 0x1_0000) as u16
    }

    /// The place in the RAM object that holds all the bytes of an access at an address.
    pub fn held(self, width: Width, address: u16) -> Option<Place>
        ensures { option_map where_of result ≡ held 0 self.entry.offsets.now self.entry.sizes.now address (bytes width) }
    {
        for (k, size) in self.sizes.iter().enumerate() {
            if self.offsets.len() <= k {
                return None;
            }
            let offset = self.offsets[k];
            if covers(offset, *size, address, bytes(width)) {
                return Some(Place::Ram(k, address - offset));
            }
        }
        None
    }

    /// What lies at an address: in a RAM object or, for a place on the screen, in the page of that place.
    pub fn found(self, width: Width, place: Place, address: u16) -> Option<Place>
        ensures { option_map where_of result ≡ found self.entry.offsets.now self.entry.sizes.now width place address }
    {
        match place {
            Place::Ram(_, _) => self.held(width, address),
            Place::Screen(page, _) => {
                let begins = page.begins();
                if covers(begins, PAGE_SIZE as u64, address, bytes(width)) {
                    Some(Place::Screen(page, address - begins))
                } else {
                    None
                }
            }
        }
    }

    // What lies `more` bytes after a place.
    pub(crate) fn reached(self, width: Width, place: Place, more: u16) -> Option<Place>
        ensures { option_map where_of result ≡ found self.entry.offsets.now self.entry.sizes.now width place (address self.entry.offsets.now self.entry.sizes.now place more) }
    {
        self.found(width, place, self.address(place, more))
    }
}
