//! What memory holds when the power comes on.

ghost use Rattle.std.specs.Prelude.{◌≡◌, length, vec_len, IfErr, IfOk, replicate};
ghost use Rattle.word86.specs.declared.fault.Fault.TheVariants.{Memory};
ghost use Rattle.word86.specs.MemoryMap.{ram_size};
ghost use Rattle.word86.specs.Page.{page_size};

use crate::fault::Fault;
use crate::memory_map::RAM_SIZE;
use crate::page::PAGE_SIZE;
use std::alloc::Global;

/// The bytes of RAM and of both pages of the screen when the power comes on: 131,072, and 4,000 of each page.
#[derive(Drop)]
pub struct PowerOn {
    ram: Vec<u8>,
    colour: Vec<u8>,
    monochrome: Vec<u8>,
    ghost ram_is_whole: { vec_len ram ≡ ram_size },
    ghost colour_is_whole: { vec_len colour ≡ page_size },
    ghost monochrome_is_whole: { vec_len monochrome ≡ page_size },
}

impl PowerOn {
    /// Memory with these bytes: of RAM, of the colour page and of the monochrome page. Asks for exactly 131,072, 4,000 and 4,000 of them.
    pub fn new(ram: Vec<u8>, colour: Vec<u8>, monochrome: Vec<u8>) -> PowerOn
        requires ram { vec_len ram ≡ ram_size }
        requires colour { vec_len colour ≡ page_size }
        requires monochrome { vec_len monochrome ≡ page_size }
        ensures ram { result.ram ≡ ram }
        ensures colour { result.colour ≡ colour }
        ensures monochrome { result.monochrome ≡ monochrome }
    {
        PowerOn {
            ram,
            colour,
            monochrome,
        }
    }

    /// Memory that holds this byte everywhere. The one refusal is want of memory.
    pub fn filled(alloc: Global, byte: u8) -> Result<PowerOn, Fault>
        ensures ram { IfOk result (λ p. p.ram.items ≡ replicate ram_size byte) }
        ensures colour { IfOk result (λ p. p.colour.items ≡ replicate page_size byte) }
        ensures monochrome { IfOk result (λ p. p.monochrome.items ≡ replicate page_size byte) }
        ensures refused { IfErr result (λ f. f ≡ Memory) }
    {
        let ram = filled_bytes(alloc, RAM_SIZE, byte)?;
        let colour = filled_bytes(alloc, PAGE_SIZE, byte)?;
        let monochrome = filled_bytes(alloc, PAGE_SIZE, byte)?;
        Ok(PowerOn {
            ram,
            colour,
            monochrome,
        })
    }

    /// The bytes of RAM, from address 0.
    pub fn ram(&self) -> &[u8]
        ensures { result.now ≡ self.now.ram.items }
    {
        self.ram.as_slice()
    }

    /// The bytes of the colour page, from address 0B8000H.
    pub fn colour(&self) -> &[u8]
        ensures { result.now ≡ self.now.colour.items }
    {
        self.colour.as_slice()
    }

    /// The bytes of the monochrome page, from address 0B0000H.
    pub fn monochrome(&self) -> &[u8]
        ensures { result.now ≡ self.now.monochrome.items }
    {
        self.monochrome.as_slice()
    }

    /// The bytes of RAM, of the colour page and of the monochrome page, handed over.
    pub fn into_parts(self) -> (Vec<u8>, Vec<u8>, Vec<u8>)
        ensures ram { result.0 ≡ self.ram }
        ensures colour { result.1 ≡ self.colour }
        ensures monochrome { result.2 ≡ self.monochrome }
    {
        let PowerOn {
            ram,
            colour,
            monochrome,
        } = self;
        (ram, colour, monochrome)
    }
}

// This byte, `count` times.
fn filled_bytes(alloc: Global, count: usize, byte: u8) -> Result<Vec<u8>, Fault>
    ensures filled { IfOk result (λ v. v.items ≡ replicate count byte) }
    ensures whole { IfOk result (λ v. vec_len v ≡ count) }
    ensures refused { IfErr result (λ f. f ≡ Memory) }
{
    Ok(vec![in alloc; byte; count]?)
}
