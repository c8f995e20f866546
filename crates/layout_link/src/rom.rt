//! The bytes of a ROM.

ghost use Rattle.std.specs.Prelude.{◌≡◌, ◌++◌, ◌+◌, ◌-◌, ◌<◌, ◌≤◌, ℕ, OnOk, IfOk, IsOkUnless, Some, length, replicate, slice_index, vec_len};
ghost use Rattle.word86.specs.MemoryMap.{code_segment, reset_offset};
ghost use Rattle.i86_table.specs.declared.instruction.Instr.TheVariants as instructions;
ghost use Rattle.i86_code.specs.Forms.{Spells};
ghost use Rattle.i86_code.specs.Writing.{bytes_of};
ghost use Rattle.layout_link.specs.Image.{bytes_in, base_of};
ghost use Rattle.layout_link.specs.Places.{total_of, places_from};
ghost use Rattle.layout_link.specs.Rom.{rom_byte, CodeInRom, WordsInRom, rom_code, rom_words};
ghost use Rattle.layout_link.specs.Stand.{PartsStand};
ghost use Rattle.layout_link.specs.Inner.Words.{filled};
ghost use Rattle.layout_link.specs.Inner.Bytes.{all_filled, rom_bytes, all_bytes, AreCoded, StandInOrder};

use crate::image::RomSize;
use crate::words::{fill, number_at};
use i86_code::{decoded_spells, encode, one_form};
use i86_table::Instr;
use select::Part;
use std::alloc::Global;
use word86::{CODE_SEGMENT, Fault, RESET_OFFSET};

/// How many bytes a ROM has from the far jump of the reset on.
pub const RESET: usize = 0x1_0000 - RESET_OFFSET as usize;

/// One more part, which begins at this place of the segment.
fn write_part(
    alloc: Global,
    rom: &mut Vec<u8>,
    part: &Part,
    offsets: &[u16],
    places: &[u16],
    base: u16,
) -> Result<(), Fault>
    ensures bytes { OnOk result (rom.new.items ≡ rom.old.items ++ filled offsets.now places.now base part.now.bytes.items part.now.fixups.items) }
    ensures memory { IsOkUnless result Fault.Memory }
{
    let mut bytes = Vec::from_slice(alloc, &part.bytes)?;
    fill(bytes.as_mut_slice(), &part.fixups, offsets, places, base);
    Ok(rom.extend_from_slice(&bytes)?)
}

/// All parts, one after another.
fn write_parts(
    alloc: Global,
    rom: &mut Vec<u8>,
    parts: &[Part],
    offsets: &[u16],
    places: &[u16],
) -> Result<(), Fault>
    ensures bytes { OnOk result (rom.new.items ≡ rom.old.items ++ all_filled offsets.now places.now 0 parts.now) }
    ensures memory { IsOkUnless result Fault.Memory }
{
    for (k, part) in parts.iter().enumerate() {
        write_part(alloc, rom, part, offsets, places, number_at(places, k))?;
    }
    Ok(())
}

/// One more instruction.
fn write(code: &mut Vec<u8>, instruction: Instr) -> Result<(), Fault>
    ensures bytes { OnOk result (code.new.items ≡ code.old.items ++ bytes_of instruction) }
    ensures coded { Spells (bytes_of instruction) instruction }
    ensures memory { IsOkUnless result Fault.Memory }
{
    let bytes = encode(&instruction);
    Ok(code.extend_from_slice(bytes.as_slice())?)
}

/// Instructions one after another.
fn write_all(code: &mut Vec<u8>, instructions: &[Instr]) -> Result<(), Fault>
    ensures bytes { OnOk result (code.new.items ≡ code.old.items ++ all_bytes instructions.now) }
    ensures coded { OnOk result (AreCoded instructions.now) }
    ensures memory { IsOkUnless result Fault.Memory }
{
    for instruction in instructions {
        write(code, *instruction)?;
    }
    Ok(())
}

/// Zeros up to this length.
fn pad(code: &mut Vec<u8>, size: usize) -> Result<(), Fault>
    requires { vec_len code.old ≤ size }
    ensures bytes { OnOk result (code.new.items ≡ code.old.items ++ replicate (size - length code.old.items) 0) }
    ensures memory { IsOkUnless result Fault.Memory }
{
    Ok(code.resize(size, 0)?)
}

/// The law that what is decoded at each place of a ROM is spelt by its bytes there, and a word by two of them.
pub(crate) fn code_in_rom(rom: &[u8])
    requires { length rom.now ≤ 65536 }
    ensures code { CodeInRom rom.now (rom_code rom.now) }
    ensures words { WordsInRom rom.now (rom_words rom.now) }
{
    decoded_spells();
}

/// The bytes of a ROM: start-up, the parts at their places with their words filled in, initial bytes, and the far jump of the reset.
/// Each part that spells its steps has them in the code that is decoded from the ROM.
pub(crate) fn rom_of(
    alloc: Global,
    head: &[Instr],
    parts: &[Part],
    offsets: &[u16],
    places: &[u16],
    initial: &[u8],
    size: RomSize,
) -> Result<Vec<u8>, Fault>
    requires fits { length (all_bytes head.now) + total_of parts.now + length initial.now + 16 ≤ bytes_in size }
    requires places { places.now ≡ places_from (base_of size + length (all_bytes head.now)) parts.now }
    ensures bytes { IfOk result (λ rom. rom.items ≡ rom_bytes (all_bytes head.now) (all_filled offsets.now places.now 0 parts.now) initial.now (bytes_of (instructions.JumpFar (base_of size) code_segment)) (bytes_in size)) }
    ensures long { IfOk result (λ rom. length rom.items ≡ bytes_in size) }
    ensures initial { IfOk result (λ rom. (i : ℕ) → i < length initial.now → rom_byte rom.items (base_of size + length (all_bytes head.now) + total_of parts.now + i) ≡ slice_index initial.now i) }
    ensures start_up { IfOk result (λ rom. StandInOrder (rom_code rom.items) (base_of size) head.now) }
    ensures reset { IfOk result (λ rom. rom_code rom.items reset_offset ≡ Some (instructions.JumpFar (base_of size) code_segment, 5)) }
    ensures parts { IfOk result (λ rom. PartsStand (rom_code rom.items) (rom_words rom.items) offsets.now places.now parts.now) }
    ensures memory { IsOkUnless result Fault.Memory }
{
    one_form();
    let bytes = size.bytes();
    let mut rom = Vec::with_capacity(alloc, bytes)?;
    write_all(&mut rom, head)?;
    write_parts(alloc, &mut rom, parts, offsets, places)?;
    rom.extend_from_slice(initial)?;
    pad(&mut rom, bytes - RESET)?;
    let jump = Instr::JumpFar {
        offset: (0x1_0000 - bytes) as u16,
        segment: CODE_SEGMENT,
    };
    write(&mut rom, jump)?;
    pad(&mut rom, bytes)?;
    Ok(rom)
}
