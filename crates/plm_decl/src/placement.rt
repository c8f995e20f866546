//! Where the objects of a program lie.

ghost use Rattle.std.specs.Prelude.{◌≡◌, ℕ, ◌+◌, ◌<◌, ◌≤◌, ◌↔◌, IsTrue, map, length, slice_index};
ghost use Rattle.word86.specs.MemoryMap.{first_offset, data_end};
ghost use Rattle.plm_decl.specs.Placement.{Has, IsApart, IsPlacement};
ghost use Rattle.plm_decl.specs.Placement.{sizes_of};

use crate::names::{Names, Object};
use word86::{DATA_END, FIRST_OFFSET};

/// An offset in the data segment for each RAM object, in order of declaration.
#[derive(Drop)]
pub struct Placement {
    offsets: Vec<u16>,
}

impl Placement {
    /// The placement with these offsets.
    pub fn of(offsets: Vec<u16>) -> Placement
        ensures { result.offsets ≡ offsets }
    {
        Placement { offsets }
    }

    /// The offsets, in order of declaration.
    pub fn offsets(&self) -> &[u16]
        ensures { result.now ≡ self.now.offsets.items }
    {
        self.offsets.as_slice()
    }

    /// Whether each of these objects has an offset so that all its bytes lie in 0002H to 0EFFFH and no two share a byte.
    pub fn fits(&self, names: &Names) -> bool
        ensures { IsTrue result ↔ IsPlacement self.now.offsets.items (sizes_of names.now) }
    {
        self.places(names.objects.as_slice())
    }

    // Whether these objects have such offsets.
    fn places(&self, objects: &[Object]) -> bool
        ensures { IsTrue result ↔ IsPlacement self.now.offsets.items (map (λ o. o.size) objects.now) }
    {
        if self.offsets.len() != objects.len() {
            return false;
        }
        for k in 0..objects.len() {
            let (offset, size) = self.at(objects, k);
            if !lies_within(offset, size) {
                return false;
            }
            if !self.is_apart(objects, k) {
                return false;
            }
        }
        true
    }

    // The offset and the size of an object.
    fn at(&self, objects: &[Object], k: usize) -> (u16, u64)
        requires each { length self.now.offsets.items ≡ length objects.now }
        requires index { k < length objects.now }
        ensures offset { result.0 ≡ slice_index self.now.offsets.items k }
        ensures size { result.1 ≡ slice_index (map (λ o. o.size) objects.now) k }
    {
        (self.offsets[k], objects[k].size)
    }

    // Whether the object shares no byte with one before it.
    fn is_apart(&self, objects: &[Object], k: usize) -> bool
        requires each { length self.now.offsets.items ≡ length objects.now }
        requires index { k < length objects.now }
        ensures { IsTrue result ↔ IsApart self.now.offsets.items (map (λ o. o.size) objects.now) k k }
    {
        let (offset, size) = self.at(objects, k);
        for j in 0..k {
            let (other, length) = self.at(objects, j);
            if !lie_apart(offset, size, other, length) {
                return false;
            }
        }
        true
    }
}

// Whether all its bytes lie within the room for data.
fn lies_within(offset: u16, size: u64) -> bool
    ensures { IsTrue result ↔ ((b : ℕ) → Has offset size b → (first_offset ≤ b) × (b < data_end)) }
{
    size == 0 || (FIRST_OFFSET <= offset && offset < DATA_END && size <= (DATA_END - offset) as u64)
}

// Whether two objects share no byte.
fn lie_apart(offset: u16, size: u64, other: u16, length: u64) -> bool
    ensures { IsTrue result ↔ ((b : ℕ) → Has other length b → ¬ Has offset size b) }
{
    size == 0
        || length == 0
        || (offset < other && size <= u64::from(other) - u64::from(offset))
        || (other < offset && length <= u64::from(offset) - u64::from(other))
}
