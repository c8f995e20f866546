//! The map of a program: its ROM, its names with their places, its handlers, its stack and its start.

ghost use Rattle.std.specs.Prelude.{◌≡◌, ◌<◌, ◌++◌, codes, length, slice_index, slice_range, option_copied, IfErr};
ghost use Rattle.std.specs.List.{concat};
ghost use Rattle.word86.specs.Sink.{Writes};
ghost use Rattle.word86.specs.declared.fault.Fault.TheVariants.{At};
ghost use Rattle.word86.specs.declared.number.Number.TheVariants.{E704};
ghost use Rattle.listing_map.specs.ProgramMap.{rom_line, place_line, object_lines, page_word, screen_line, declared_lines, handler_line, handler_lines, stack_line, start_line, map_text};
ghost use Rattle.listing_map.specs.ProgramMap as spec;

use crate::lines::CANNOT_WRITE;
use crate::numerals::{hex_byte, hex_low_word, hex_word};
use crate::pieces::{put_five, put_four, put_three};
use itoa::Buffer;
use layout_link::Image;
use plm_decl::{Names, Object, ScreenName};
use plm_type::Program;
use word86::{Fault, Page, Sink, SinkFault};

/// Writes the map of a program: how large its ROM is, each object and each name on a page of the screen with its place and its
/// size, the procedures that handle interrupts, the most bytes on the stack, and the turns of its start. A name's place on a page
/// counts from the page's first byte. The one refusal is E704, where the sink failed; what it took is then a beginning of the
/// text. It takes no memory.
pub fn map<S: Sink>(image: &Image, program: &Program, sink: &mut S) -> Result<(), Fault>
    ensures text { Writes (S.taken sink.old) (S.taken sink.new) (S.failures sink.old) (S.failures sink.new) (map_text image.now program.now.names) result }
    ensures fault { IfErr result (λ e. e ≡ At 0 1 E704) }
{
    match put_map(sink, image, program) {
        Ok(()) => Ok(()),
        Err(_) => Err(CANNOT_WRITE),
    }
}

fn put_map<S: Sink>(sink: &mut S, image: &Image, program: &Program) -> Result<(), SinkFault>
    ensures { Writes (S.taken sink.old) (S.taken sink.new) (S.failures sink.old) (S.failures sink.new) (map_text image.now program.now.names) result }
{
    match put_named(sink, image, program) {
        Ok(()) => put_run(sink, image),
        Err(fault) => Err(fault),
    }
}

/// Writes the lines before that of the stack.
fn put_named<S: Sink>(sink: &mut S, image: &Image, program: &Program) -> Result<(), SinkFault>
    ensures { Writes (S.taken sink.old) (S.taken sink.new) (S.failures sink.old) (S.failures sink.new) (rom_line (length image.now.rom.items) ++ declared_lines (object_lines image.now.placement.offsets.items 0 program.now.names.objects.items) 0 program.now.names.screen_names.items ++ handler_lines 256 0 program.now.names) result }
{
    match put_placed(sink, image, program.names()) {
        Ok(()) => put_handlers(sink, program),
        Err(fault) => Err(fault),
    }
}

/// Writes the lines before those of the handlers.
fn put_placed<S: Sink>(sink: &mut S, image: &Image, names: &Names) -> Result<(), SinkFault>
    ensures { Writes (S.taken sink.old) (S.taken sink.new) (S.failures sink.old) (S.failures sink.new) (rom_line (length image.now.rom.items) ++ declared_lines (object_lines image.now.placement.offsets.items 0 names.now.objects.items) 0 names.now.screen_names.items) result }
{
    let rom = image.rom.as_slice();
    let offsets = image.placement.offsets();
    let objects = names.objects.as_slice();
    let screen_names = names.screen_names.as_slice();
    match put_rom(sink, rom) {
        Ok(()) => put_declared(sink, offsets, objects, screen_names),
        Err(fault) => Err(fault),
    }
}

fn put_rom<S: Sink>(sink: &mut S, rom: &[u8]) -> Result<(), SinkFault>
    ensures { Writes (S.taken sink.old) (S.taken sink.new) (S.failures sink.old) (S.failures sink.new) (rom_line (length rom.now)) result }
{
    let mut buffer = Buffer::new();
    let kib = buffer.format(rom.len() / 1024).as_bytes();
    put_three(sink, b"ROM ", kib, b" KIB\n")
}

/// Writes the lines of the objects and of the screen names, in order of declaration.
fn put_declared<S: Sink>(
    sink: &mut S,
    offsets: &[u16],
    objects: &[Object],
    screen_names: &[ScreenName],
) -> Result<(), SinkFault>
    ensures { Writes (S.taken sink.old) (S.taken sink.new) (S.failures sink.old) (S.failures sink.new) (declared_lines (object_lines offsets.now 0 objects.now) 0 screen_names.now) result }
{
    let mut done = 0;
    for name in screen_names {
        if let Err(fault) = put_screen_name(sink, offsets, objects, done, name) {
            return Err(fault);
        }
        done = done.max(name.objects_before);
    }
    put_objects(sink, offsets, objects, done, objects.len())
}

/// Writes the lines of the objects from the number `done` on that are declared before a screen name, and its own.
fn put_screen_name<S: Sink>(
    sink: &mut S,
    offsets: &[u16],
    objects: &[Object],
    done: usize,
    name: &ScreenName,
) -> Result<(), SinkFault>
    ensures { Writes (S.taken sink.old) (S.taken sink.new) (S.failures sink.old) (S.failures sink.new) (concat (slice_range (object_lines offsets.now 0 objects.now) done name.now.objects_before) ++ screen_line name.now) result }
{
    match put_objects(sink, offsets, objects, done, name.objects_before) {
        Ok(()) => put_place(
            sink,
            page_word(name.page),
            name.offset,
            name.size,
            name.path.as_slice(),
        ),
        Err(fault) => Err(fault),
    }
}

/// The word with which the line of a name on this page begins.
fn page_word(page: Page) -> &'static [u8]
    ensures { result.now ≡ page_word page }
{
    match page {
        Page::Monochrome => b"MONO ",
        Page::Colour => b"SCREEN ",
    }
}

/// Writes the lines of the objects from one number up to another.
fn put_objects<S: Sink>(
    sink: &mut S,
    offsets: &[u16],
    objects: &[Object],
    from: usize,
    end: usize,
) -> Result<(), SinkFault>
    ensures { Writes (S.taken sink.old) (S.taken sink.new) (S.failures sink.old) (S.failures sink.new) (concat (slice_range (object_lines offsets.now 0 objects.now) from end)) result }
{
    for number in from..end.min(objects.len()) {
        let object = &objects[number];
        if let Err(fault) = put_object(sink, offset_of(offsets, number), object) {
            return Err(fault);
        }
    }
    Ok(())
}

fn put_object<S: Sink>(sink: &mut S, offset: u16, object: &Object) -> Result<(), SinkFault>
    ensures { Writes (S.taken sink.old) (S.taken sink.new) (S.failures sink.old) (S.failures sink.new) (place_line (codes "OBJECT ") offset object.now.size object.now.path.items) result }
{
    put_place(
        sink,
        b"OBJECT ",
        u64::from(offset),
        object.size,
        object.path.as_slice(),
    )
}

/// The offset of an object, 0 where it has none.
fn offset_of(offsets: &[u16], number: usize) -> u16
    ensures { result ≡ slice_index offsets.now number }
{
    if number < offsets.len() {
        offsets[number]
    } else {
        0
    }
}

fn put_place<S: Sink>(
    sink: &mut S,
    word: &[u8],
    offset: u64,
    size: u64,
    name: &[u8],
) -> Result<(), SinkFault>
    ensures { Writes (S.taken sink.old) (S.taken sink.new) (S.failures sink.old) (S.failures sink.new) (place_line word.now offset size name.now) result }
{
    let [a, b, c, d] = hex_low_word(offset);
    let [e, f, g, h] = hex_low_word(size);
    put_four(
        sink,
        word,
        &[a, b, c, d, b' ', e, f, g, h, b' '],
        name,
        b"\n",
    )
}

/// Writes a line for each interrupt that enters a procedure.
fn put_handlers<S: Sink>(sink: &mut S, program: &Program) -> Result<(), SinkFault>
    ensures { Writes (S.taken sink.old) (S.taken sink.new) (S.failures sink.old) (S.failures sink.new) (handler_lines 256 0 program.now.names) result }
{
    for number in 0..256u16 {
        let vector = number as u8;
        if let Err(fault) = put_handler(sink, vector, handler_name(program, vector)) {
            return Err(fault);
        }
    }
    Ok(())
}

fn put_handler<S: Sink>(sink: &mut S, number: u8, name: Option<&[u8]>) -> Result<(), SinkFault>
    ensures { Writes (S.taken sink.old) (S.taken sink.new) (S.failures sink.old) (S.failures sink.new) (handler_line number (option_copied name.entry)) result }
{
    let [a, b] = hex_byte(number);
    match name {
        Some(name) => put_four(sink, b"HANDLER ", &[a, b, b' '], name, b"\n"),
        None => Ok(()),
    }
}

/// The name of the procedure that an interrupt of this number enters.
fn handler_name(program: &Program, number: u8) -> Option<&[u8]>
    ensures { option_copied result ≡ spec.handler_name program.now.names number }
{
    let handler = program.handler_number(number)?;
    let procedure = program.names().procedures.get(handler)?;
    Some(procedure.path.as_slice())
}

/// Writes the lines of the stack and of the start.
fn put_run<S: Sink>(sink: &mut S, image: &Image) -> Result<(), SinkFault>
    ensures { Writes (S.taken sink.old) (S.taken sink.new) (S.failures sink.old) (S.failures sink.new) (stack_line image.now.stack ++ start_line image.now.start_turns) result }
{
    let [a, b, c, d] = hex_word(image.stack.main);
    let [e, f, g, h] = hex_word(image.stack.handler);
    let mut buffer = Buffer::new();
    let turns = buffer.format(image.start_turns).as_bytes();
    put_five(
        sink,
        b"STACK ",
        &[a, b, c, d, b' ', e, f, g, h, b'\n'],
        b"START ",
        turns,
        b"\n",
    )
}
