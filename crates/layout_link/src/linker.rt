//! From parts to an image.

ghost use Rattle.std.specs.Prelude.{◌≡◌, ◌+◌, ◌<◌, ◌≤◌, ◌⊎◌, ℕ, IfErr, IfOk, MatchOption, OnOk, length, map, position, slice_index};
ghost use Rattle.std.specs.Option.{option_map_or};
ghost use Rattle.plm_decl.specs.Placement.{IsPlacement, sizes_of};
ghost use Rattle.layout_link.specs.Image.{bytes_in, base_of};
ghost use Rattle.layout_link.specs.Places.{total_of, places_from};
ghost use Rattle.layout_link.specs.Startup.{HasStartUpBefore, start_up_turns, turns_without_acts};
ghost use Rattle.layout_link.specs.Tasks.{placed, bytes_of_tasks, start_up_bytes, is_main, is_unserved};
ghost use Rattle.layout_link.specs.Initial.{HaveBytes, count_of};
ghost use Rattle.layout_link.specs.Rom.{rom_byte, CodeInRom, WordsInRom, rom_code, rom_words};
ghost use Rattle.layout_link.specs.Stand.{PartsStand};
ghost use Rattle.layout_link.specs.Linker.{offsets_in, start_up_in, needed, place_in, places_in, place_of, acts_in, InitialStands};
ghost use Rattle.layout_link.specs.Inner.Head.{TasksFit, turns_of_task, turns_of_tasks};

use crate::image::{Image, RomSize};
use crate::initial::initial;
use crate::objects::offsets_of;
use crate::places::{are_within, end_of, places_of};
use crate::rom::{RESET, code_in_rom, rom_of};
use crate::startup::{START_UP, start_up};
use crate::tasks::{Task, bytes_of, is_main, is_unserved, vectors};
use crate::words::number_at;
use frames::Stack;
use plm_decl::{Names, Placement, initial_values_fit};
use select::Part;
use std::alloc::Global;
use word86::{Fault, Number};

/// The turns of start-up without its tasks.
const TURNS: u32 = 1292;

/// The room that the tasks leave.
pub(crate) fn room_behind(tasks: &[Task], room: usize) -> Option<usize>
    ensures { MatchOption result (room < bytes_of_tasks tasks.now) (λ left. left + bytes_of_tasks tasks.now ≡ room) }
{
    let mut left = room;
    for task in tasks {
        left = left.checked_sub(bytes_of(*task))?;
    }
    Some(left)
}

/// The bytes of start-up, if it, the parts and the initial bytes, `initial` in number, fit a ROM; E601 exactly if they do not.
fn head_of(tasks: &[Task], parts: &[Part], initial: usize, size: RomSize) -> Result<usize, Fault>
    ensures head { IfOk result (λ head. head ≡ start_up_bytes tasks.now) }
    ensures fits { OnOk result (start_up_bytes tasks.now + total_of parts.now + initial + 16 ≤ bytes_in size) }
    ensures full { IfErr result (λ e. (e ≡ Fault.At 0 1 Number.E601) × (bytes_in size < start_up_bytes tasks.now + total_of parts.now + initial + 16)) }
{
    let full = Fault::At(0, 1, Number::E601);
    let bytes = size.bytes();
    let Some(left) = room_behind(tasks, bytes - START_UP - RESET) else {
        return Err(full);
    };
    if initial > left || !are_within(parts, left - initial) {
        return Err(full);
    }
    Ok(bytes - RESET - left)
}

/// The turns of a task.
fn turns_of(task: Task) -> u32
    ensures { result ≡ turns_of_task task }
{
    match task {
        Task::Vector { .. } | Task::Word { .. } | Task::Byte { .. } => 1,
        Task::Copy { more, .. } => 4 + u32::from(more),
    }
}

/// The turns of start-up.
fn start_turns(tasks: &[Task]) -> u32
    requires { turns_of_tasks tasks.now ≤ 100000 }
    ensures { result ≡ turns_without_acts + turns_of_tasks tasks.now }
{
    let mut turns = TURNS;
    for task in tasks {
        turns += turns_of(*task);
    }
    turns
}

/// The number of the first part that is main's.
fn main_part(parts: &[Part]) -> Option<usize>
    ensures { result ≡ position (λ p. is_main p.entry) parts.now }
{
    parts.iter().position(|part| is_main(part.entry))
}

/// The number of the first part that serves the vectors without a part of their own.
fn unserved_part(parts: &[Part]) -> Option<usize>
    ensures { result ≡ position (λ p. is_unserved p.entry) parts.now }
{
    parts.iter().position(|part| is_unserved(part.entry))
}

/// Where a part begins; 0 if there is none.
fn place_of(part: Option<usize>, places: &[u16]) -> u16
    ensures { result ≡ option_map_or (λ k. slice_index places.now k) part 0 }
{
    match part {
        Some(part) => number_at(places, part),
        None => 0,
    }
}

/// The ROM of these parts, with objects at these offsets, these tasks and these initial bytes; E601 exactly if they do not fit.
fn rom_with(
    alloc: Global,
    parts: &[Part],
    offsets: &[u16],
    tasks: &[Task],
    initial: &[u8],
    size: RomSize,
) -> Result<Vec<u8>, Fault>
    requires { (from : ℕ) → from + length initial.now < 65536 → TasksFit from tasks.now }
    ensures fits { OnOk result (start_up_bytes tasks.now + total_of parts.now + length initial.now + 16 ≤ bytes_in size) }
    ensures full { IfErr result (λ e. (e ≡ Fault.Memory) ⊎ ((e ≡ Fault.At 0 1 Number.E601) × (bytes_in size < start_up_bytes tasks.now + total_of parts.now + length initial.now + 16))) }
    ensures long { IfOk result (λ rom. length rom.items ≡ bytes_in size) }
    ensures code { IfOk result (λ rom. CodeInRom rom.items (rom_code rom.items)) }
    ensures words { IfOk result (λ rom. WordsInRom rom.items (rom_words rom.items)) }
    ensures start_up { IfOk result (λ rom. let begin = base_of size + start_up_bytes tasks.now in let places = places_from begin parts.now in
        HasStartUpBefore begin (rom_code rom.items) (place_in places parts.now is_unserved) (map (placed places (begin + total_of parts.now)) tasks.now) (place_in places parts.now is_main)) }
    ensures initial { IfOk result (λ rom. (i : ℕ) → i < length initial.now → rom_byte rom.items (base_of size + start_up_bytes tasks.now + total_of parts.now + i) ≡ slice_index initial.now i) }
    ensures parts { IfOk result (λ rom. PartsStand (rom_code rom.items) (rom_words rom.items) offsets.now (places_from (base_of size + start_up_bytes tasks.now) parts.now) parts.now) }
{
    let head = head_of(tasks, parts, initial.len(), size)?;
    let begin = (0x1_0000 - size.bytes() + head) as u16;
    let places = places_of(alloc, parts, begin)?;
    let main = place_of(main_part(parts), &places);
    let unserved = place_of(unserved_part(parts), &places);
    let from = end_of(parts, begin);
    let distance = main.wrapping_sub(begin);
    let code = start_up(alloc, unserved, tasks, &places, from, distance)?;
    let rom = rom_of(alloc, &code, parts, offsets, &places, initial, size)?;
    code_in_rom(&rom);
    Ok(rom)
}

/// The image of a program, from its parts in order, what it declares, and the most bytes on the stack: `Memory` is answered for want
/// of memory, and E601 at line 1 of module 0 exactly where start-up, the parts and the initial bytes do not fit the ROM.
///
/// The objects lie from 0002H of the data segment on, in order of declaration. The ROM, which ends at address 0FFFFFH, begins with
/// start-up; then come the parts, whose words are filled in, and the initial bytes; a far jump to start-up stands at 0FFFF0H.
/// Start-up sets all 256 vectors: to the first part that serves it, else to the first one for all others. It puts the initial bytes
/// into RAM, touches no other, loads the segments, sets SP to 0FFFEH and goes on to the first part that is main's.
pub fn link(
    alloc: Global,
    parts: Vec<Part>,
    names: &Names,
    stack: Stack,
    size: RomSize,
) -> Result<Image, Fault>
    // Its length.
    ensures long { IfOk result (λ image. length image.rom.items ≡ bytes_in size) }
    // What is decoded at each place is spelt by the bytes there, and a word of a table by its two bytes.
    ensures code { IfOk result (λ image. CodeInRom image.rom.items (rom_code image.rom.items)) }
    ensures words { IfOk result (λ image. WordsInRom image.rom.items (rom_words image.rom.items)) }
    // Start-up, which stands before all parts.
    ensures start_up { IfOk result (λ image. HasStartUpBefore (base_of size + start_up_in names.now parts.items) (rom_code image.rom.items) (place_of names.now parts.items size is_unserved) (acts_in names.now parts.items size) (place_of names.now parts.items size is_main)) }
    ensures initial { IfOk result (λ image. InitialStands names.now parts.items size image.rom.items) }
    ensures bytes { OnOk result (HaveBytes (offsets_in names.now) names.now.variables.items names.now.objects.items) }
    ensures turns { IfOk result (λ image. image.start_turns ≡ start_up_turns (acts_in names.now parts.items size)) }
    ensures few_turns { IfOk result (λ image. image.start_turns ≤ 4096 + count_of (offsets_in names.now) names.now.variables.items names.now.objects.items) }
    // Whatever steps a part has, they stand, with their objects and parts at their places.
    ensures parts { IfOk result (λ image. PartsStand (rom_code image.rom.items) (rom_words image.rom.items) (offsets_in names.now) (places_in names.now parts.items size) parts.items) }
    ensures within { OnOk result ((part : ℕ) → slice_index (places_in names.now parts.items size) part < 65536) }
    // The objects.
    ensures offsets { IfOk result (λ image. image.placement.offsets.items ≡ offsets_in names.now) }
    ensures placement { IfOk result (λ image. IsPlacement image.placement.offsets.items (sizes_of names.now)) }
    ensures stack { IfOk result (λ image. image.stack ≡ stack) }
    ensures fits { OnOk result (needed names.now parts.items ≤ bytes_in size) }
    ensures full { IfErr result (λ e. (e ≡ Fault.Memory) ⊎ ((e ≡ Fault.At 0 1 Number.E601) × (bytes_in size < needed names.now parts.items))) }
{
    initial_values_fit();
    let offsets = offsets_of(alloc, &names.objects)?;
    let mut tasks = vectors(alloc, &parts)?;
    let bytes = initial(alloc, names, &offsets, &mut tasks)?;
    let rom = rom_with(alloc, &parts, &offsets, &tasks, &bytes, size)?;
    Ok(Image {
        rom,
        placement: Placement::of(offsets),
        stack,
        start_turns: start_turns(&tasks),
    })
}
