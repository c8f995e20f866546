//! The bytes of the program's objects when the power comes on: initial values, and what RAM holds.

ghost use Rattle.std.specs.Prelude.{◌≡◌, ◌<◌, ◌^◌, ◌++◌, IfOk, slice_get, map, take, drop};
ghost use Rattle.plm_decl.specs.Names.{object_of};
ghost use Rattle.plm_decl.specs.Initial.{word as word_bytes, variable_address, datum_bytes};
ghost use Rattle.plm_meaning.specs.Opening.{object_at, objects_at};
ghost use Rattle.plm_meaning.specs.Around.{names_of};
ghost use Rattle.plm_meaning.specs.Inner.Redex.{offsets_of};

use crate::around::Surroundings;
use plm_decl::{Datum, Object, Region};
use std::alloc::{AllocError, Global};
use word86::DATA_START;

// The first `count` bytes, or all where there are fewer.
fn first(bytes: &[u8], count: usize) -> &[u8]
    ensures { result.now ≡ take count bytes.now }
{
    if count <= bytes.len() {
        bytes.split_at(count).0
    } else {
        bytes
    }
}

// What comes after the first `count` bytes.
fn without_first(bytes: &[u8], count: usize) -> &[u8]
    ensures { result.now ≡ drop count bytes.now }
{
    if count <= bytes.len() {
        bytes.split_at(count).1
    } else {
        &[]
    }
}

// Puts an address, modulo 65,536, low byte first.
fn put_word(bytes: &mut Vec<u8>, word: u128) -> Result<(), AllocError>
    ensures { IfOk result (λ done. bytes.new.items ≡ bytes.old.items ++ word_bytes word) }
{
    bytes.push((word % 0x100) as u8)?;
    bytes.push((word / 0x100 % 0x100) as u8)?;
    Ok(())
}

impl Surroundings<'_> {
    // Where a variable lies in the data segment.
    fn variable(&self, variable: usize) -> u128
        ensures address { result ≡ variable_address (offsets_of self.now) (names_of self.now).variables.items (slice_get (names_of self.now).variables.items variable) }
        ensures small { result < 2 ^ 65 }
    {
        match self.program.names().variables.get(variable) {
            None => 0,
            Some(variable) => match variable.region {
                Region::Ram(object, start) => u128::from(self.offset(object)) + u128::from(start),
                Region::Screen(_, _) | Region::Based(_) | Region::Nowhere => 0,
            },
        }
    }

    // Puts the bytes of an initial value.
    fn put_datum(&self, bytes: &mut Vec<u8>, datum: Datum) -> Result<(), AllocError>
        ensures { IfOk result (λ done. bytes.new.items ≡ bytes.old.items ++ datum_bytes (offsets_of self.now) (names_of self.now).variables.items datum) }
    {
        match datum {
            Datum::Byte(byte) => {
                bytes.push(byte)?;
                Ok(())
            }
            Datum::Word(word) => put_word(bytes, u128::from(word)),
            Datum::Variable(variable, offset) => put_word(
                bytes,
                self.variable(variable) + u128::from(offset),
            ),
            Datum::Constants(object) => put_word(bytes, u128::from(self.offset(object))),
        }
    }

    // The bytes of an object: its initial ones, and after them those of RAM.
    fn object(
        &self,
        alloc: Global,
        ram: &[u8],
        offset: u16,
        object: &Object,
    ) -> Result<Vec<u8>, AllocError>
        ensures { IfOk result (λ bytes. bytes.items ≡ object_at (offsets_of self.now) (names_of self.now).variables.items ram.now offset (object_of object.now)) }
    {
        let mut bytes = Vec::new(alloc);
        for datum in &object.initial {
            self.put_datum(&mut bytes, *datum)?;
        }
        let held = first(
            without_first(ram, DATA_START as usize + usize::from(offset)),
            object.size as usize,
        );
        let initial = bytes.len();
        bytes.extend_from_slice(without_first(held, initial))?;
        Ok(bytes)
    }
}

/// The objects' bytes when RAM holds these.
pub fn first_objects(
    alloc: Global,
    around: &Surroundings<'_>,
    ram: &[u8],
) -> Result<Vec<Vec<u8>>, AllocError>
    ensures { IfOk result (λ objects. map (λ bytes. bytes.items) objects.items ≡ objects_at (offsets_of around.now) (names_of around.now).variables.items ram.now (offsets_of around.now) (map object_of (names_of around.now).objects.items)) }
{
    let objects = &around.program.names().objects;
    let mut bytes = Vec::new(alloc);
    for (number, offset) in around.placement.offsets().iter().enumerate() {
        if objects.len() <= number {
            return Ok(bytes);
        }
        bytes.push(around.object(alloc, ram, *offset, &objects[number])?)?;
    }
    Ok(bytes)
}
