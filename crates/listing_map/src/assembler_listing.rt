//! The code of a program as a listing: for each statement its source line, and under it its instructions as they stand in the ROM.
//!
//! It begins with the map's lines. What stands behind them has no contract: `tests/code` compares the instructions with those of another
//! disassembler, and the statements with the accesses that they make.

mod marks;
mod mnemonics;
mod rounds;

ghost use Rattle.std.specs.Prelude.{◌≡◌, ◌≤◌, ◌++◌, ℕ, List, length, IfOk, IfSome};
ghost use Rattle.listing_map.specs.ProgramMap.{map_text};

use crate::collected::Collected;
use crate::noted::Noted;
use crate::numerals::{hex_address, hex_byte, hex_low_word};
use crate::program_map::map;
use crate::routines::{path_of, procedure_path, routines_of};
use crate::source_listing::first_line;
use crate::stack_paths::{Deep, Way, deeps_of, handler_ways, main_way};
use crate::texts::NamedText;
use i86_code::decode;
use i86_table::Instr;
use icode::{Code, Instruction, Routine};
use itoa::Buffer;
use layout_link::{Image, RESET, start_up_room};
use marks::{Mark, Sort, marks_of, sort_of};
use mnemonics::{put_instruction, put_number};
use plm_decl::{Names, Statement};
use plm_type::{Program, Statement as Typed};
use rounds::note_all;
use select::{Entry, Part, RowPlaces};
use std::alloc::{AllocError, Global};
use word86::{Fault, Width};

/// A line of more bytes stands once, where its first code comes; after that two periods stand for it.
const LONG: usize = 160;

/// As many blanks as the bytes of an instruction take columns.
const BLANKS: &[u8; 24] = b"                        ";

/// What a listing is of, and where the parts begin in the ROM.
#[derive(Clone, Copy)]
struct Listed<'p> {
    alloc: Global,
    names: &'p Names,
    code: &'p Code,
    rom: &'p [u8],
    begin: usize,
}

/// A routine's part: where it begins in the ROM, where the bytes of each of its instructions begin from there, where each of its statements
/// does, and the module and the line of its declaration.
#[derive(Drop)]
struct Section {
    routine: Routine,
    begin: usize,
    places: Vec<u16>,
    marks: Vec<Mark>,
    module: usize,
    line: Option<u32>,
}

/// The bytes from one place up to another.
fn stretch(bytes: &[u8], from: usize, to: usize) -> &[u8] {
    let to = to.min(bytes.len());
    let from = from.min(to);
    &bytes[from..to]
}

/// The instruction at the front of some bytes, and how many of them it has, at least one.
fn front(bytes: &[u8]) -> Option<(Instr, usize)>
    ensures { IfSome result (λ d. d.1 ≤ length bytes.now) }
{
    let (instruction, length) = decode(bytes)?;
    if length == 0 {
        return None;
    }
    Some((instruction, length))
}

/// Parts without bytes, one for each vector that a procedure serves.
fn entries(alloc: Global, code: &Code) -> Result<Vec<Part>, AllocError> {
    let mut parts = Vec::new(alloc);
    for vector in 0..=u8::MAX {
        if let Routine::Procedure(_) = code.serving(vector) {
            parts.push(Part {
                entry: Entry::Vector(vector),
                bytes: Vec::new(alloc),
                fixups: Vec::new(alloc),
            })?;
        }
    }
    Ok(parts)
}

/// Where the parts begin in the ROM of a program: behind start-up, whose length goes by what leads into the parts and not by their bytes.
fn parts_begin(alloc: Global, names: &Names, code: &Code) -> Result<usize, Fault> {
    Ok(start_up_room(alloc, &entries(alloc, code)?, names)?.code)
}

/// The statements of a routine.
fn statements_of(names: &Names, routine: Routine) -> &[Statement] {
    match routine {
        Routine::Main => names.main.statements.as_slice(),
        Routine::Procedure(number) => match names.procedures.get(number) {
            Some(procedure) => procedure.body.as_slice(),
            None => &[],
        },
        Routine::Unserved | Routine::Nowhere => &[],
    }
}

/// The same with their types.
fn typed_of(program: &Program, routine: Routine) -> &[Box<Typed>] {
    match routine {
        Routine::Main => program.main(),
        Routine::Procedure(number) => match program.procedures().get(number) {
            Some(procedure) => procedure.body.as_slice(),
            None => &[],
        },
        Routine::Unserved | Routine::Nowhere => &[],
    }
}

/// The module of a routine, and the line of its declaration.
fn declared_at(names: &Names, routine: Routine) -> (usize, Option<u32>) {
    match routine {
        Routine::Main => (names.main.module, None),
        Routine::Procedure(number) => match names.procedures.get(number) {
            Some(procedure) => (procedure.module, Some(procedure.place.line)),
            None => (0, None),
        },
        Routine::Unserved | Routine::Nowhere => (0, None),
    }
}

/// Adds bytes in hexadecimal, and blanks up to the column of the next one.
fn put_bytes(text: &mut Noted<u8>, bytes: &[u8]) {
    for byte in bytes {
        let [high, low] = hex_byte(*byte);
        text.put(&[b' ', high, low]);
    }
    text.put(&BLANKS[bytes.len().saturating_mul(3).min(BLANKS.len())..]);
}

/// The lines of a text.
fn lines_in<'a>(alloc: Global, text: &'a [u8]) -> Result<Vec<&'a [u8]>, AllocError> {
    let mut lines: Vec<&'a [u8]> = Vec::new(alloc);
    let mut rest = text;
    for _byte in text {
        if rest.is_empty() {
            return Ok(lines);
        }
        let (line, after) = first_line(rest);
        lines.push(line)?;
        rest = after;
    }
    Ok(lines)
}

/// The lines of each source.
fn all_lines<'a>(
    alloc: Global,
    sources: &[NamedText<'a>],
) -> Result<Vec<Vec<&'a [u8]>>, AllocError> {
    let mut all = Vec::new(alloc);
    for source in sources {
        all.push(lines_in(alloc, source.text)?)?;
    }
    Ok(all)
}

/// The line of this number of a module; nothing where there is none.
fn source_line<'a>(lines: &[Vec<&'a [u8]>], module: usize, number: u32) -> &'a [u8] {
    let Some(own) = lines.get(module) else {
        return b"";
    };
    match own.get((number as usize).saturating_sub(1)) {
        Some(line) => *line,
        None => b"",
    }
}

impl Listed<'_> {
    /// The physical address of a byte of the ROM.
    fn address(self, place: usize) -> u32 {
        let first = 0x10_0000u32.saturating_sub(self.rom.len().min(0x1_0000) as u32);
        first.saturating_add(place.min(0x1_0000) as u32)
    }

    /// Adds an address and bytes.
    fn put_front(self, text: &mut Noted<u8>, from: usize, bytes: &[u8]) {
        text.put(&hex_address(self.address(from)));
        text.add(b' ');
        put_bytes(text, bytes);
    }

    /// Adds a line for an instruction at the front of some bytes that begin here, or for one byte that is none, and answers how many bytes it
    /// has.
    fn put_line(self, text: &mut Noted<u8>, from: usize, to: usize) -> usize {
        let bytes = stretch(self.rom, from, to);
        let Some((instruction, length)) = front(bytes) else {
            self.put_front(text, from, stretch(bytes, 0, 1));
            text.put(b"DB\n");
            return 1;
        };
        self.put_front(text, from, stretch(bytes, 0, length));
        let next = self.address(from.saturating_add(length)) % 0x1_0000;
        put_instruction(text, instruction, next as u16);
        text.add(b'\n');
        length
    }

    /// Adds a line for each instruction from one place up to another.
    fn put_instructions(self, text: &mut Noted<u8>, from: usize, to: usize) {
        let mut at = from;
        for _instruction in from..to {
            if at >= to {
                return;
            }
            let length = self.put_line(text, at, to);
            at = at.saturating_add(length);
        }
    }

    /// Adds the line of a word of a table: where a case begins.
    fn put_word(self, text: &mut Noted<u8>, from: usize, to: usize) {
        let bytes = stretch(self.rom, from, to);
        self.put_front(text, from, bytes);
        let word = match bytes {
            [low, high, ..] => u16::from_le_bytes([*low, *high]),
            [_] | [] => 0,
        };
        text.put(b"DW ");
        put_number(text, word, Width::Word);
        text.add(b'\n');
    }

    /// Adds what an instruction of the intermediate code stands for.
    fn put_row(self, text: &mut Noted<u8>, instruction: Instruction, from: usize, to: usize) {
        match sort_of(instruction) {
            Sort::Case => self.put_word(text, from, to),
            Sort::Store
            | Sort::Call
            | Sort::Leave
            | Sort::Asks
            | Sort::AsksBack
            | Sort::Cases
            | Sort::Other => self.put_instructions(text, from, to),
        }
    }

    /// The part of a routine, which begins here.
    fn section(
        self,
        program: &Program,
        rows: &RowPlaces<'_>,
        routine: Routine,
        begin: usize,
    ) -> Result<Section, Fault> {
        let instructions = self.code.instructions(routine);
        let places = rows.of(self.alloc, routine)?;
        let (module, line) = declared_at(self.names, routine);
        let statements = statements_of(self.names, routine);
        let mut noted = Noted::new(self.alloc);
        note_all(typed_of(program, routine), &mut noted);
        let endless = noted.whole()?;
        let marks = marks_of(statements, &endless, instructions, Noted::new(self.alloc))?;
        Ok(Section {
            routine,
            begin,
            places,
            marks,
            module,
            line,
        })
    }

    /// All parts, one after another.
    fn sections(self, program: &Program) -> Result<Vec<Section>, Fault> {
        let rows = RowPlaces::new(self.alloc, self.code)?;
        let mut begin = self.begin;
        let mut all = Vec::new(self.alloc);
        for routine in routines_of(self.alloc, self.code)? {
            let section = self.section(program, &rows, routine, begin)?;
            begin = section.end();
            all.push(section)?;
        }
        all.push(self.section(program, &rows, Routine::Unserved, begin)?)?;
        Ok(all)
    }

    /// Adds the line of a part: where it begins, how many bytes it has, and what it is called.
    fn put_name(self, text: &mut Noted<u8>, section: &Section) {
        let size = section.end().saturating_sub(section.begin);
        text.put(b"CODE ");
        text.put(&hex_address(self.address(section.begin)));
        text.add(b' ');
        text.put(&hex_low_word(size as u64));
        text.add(b' ');
        text.put(path_of(self.names, section.routine));
        text.add(b'\n');
    }

    /// Adds the names of a way of calls, at most as many as there are procedures.
    fn put_steps(self, text: &mut Noted<u8>, deeps: &[Deep], way: Way) {
        let mut at = way.first;
        for _step in 0..self.code.procedures.len() {
            let Some(number) = at else {
                return;
            };
            text.add(b' ');
            text.put(procedure_path(self.names, number));
            at = match deeps.get(number) {
                Some(deep) => deep.next,
                None => None,
            };
        }
    }

    /// Adds the line of a way of calls: the bytes of the stack that it takes, and its procedures.
    fn put_way(self, text: &mut Noted<u8>, deeps: &[Deep], first: &str, way: Way) {
        text.put(b"CALLS ");
        text.put(&hex_low_word(way.bytes));
        text.put(first.as_bytes());
        self.put_steps(text, deeps, way);
        text.add(b'\n');
    }

    /// Adds the deepest ways of calls: from main on, and from each interrupt on that a procedure serves.
    fn put_ways(self, text: &mut Noted<u8>) -> Result<(), Fault> {
        let deeps = deeps_of(self.alloc, self.code)?;
        self.put_way(text, &deeps, " main", main_way(self.code, &deeps));
        for way in handler_ways(self.alloc, self.code, &deeps)? {
            self.put_way(text, &deeps, "", way);
        }
        Ok(())
    }
}

impl Section {
    /// Where the bytes of an instruction of the intermediate code begin in the ROM, or where the part ends.
    fn place(&self, index: usize) -> usize {
        match self.places.get(index) {
            Some(place) => self.begin.saturating_add(usize::from(*place)),
            None => self.end(),
        }
    }

    fn end(&self) -> usize {
        match self.places.last() {
            Some(place) => self.begin.saturating_add(usize::from(*place)),
            None => self.begin,
        }
    }
}

/// What is written so far, the lines of the sources, and the line that stands above.
#[derive(Drop)]
struct Writing<'p, 'a> {
    listed: Listed<'p>,
    lines: Vec<Vec<&'a [u8]>>,
    text: Noted<u8>,
    above: Option<u32>,
}

impl Writing<'_, '_> {
    /// Of a long line only the first mention has the text: what is written for the others stays in proportion to the code.
    fn shorten(&mut self, module: usize, line: u32) {
        let Some(own) = self.lines.get_mut(module) else {
            return;
        };
        if let Some(text) = own.get_mut((line as usize).saturating_sub(1)) {
            if text.len() > LONG {
                *text = b"..";
            }
        }
    }

    /// Adds a line of a source, unless it stands above already.
    fn put_source(&mut self, module: usize, line: u32) {
        if self.above == Some(line) {
            return;
        }
        let mut buffer = Buffer::new();
        let digits = buffer.format(line).as_bytes();
        self.text
            .put(&b"     "[..5usize.saturating_sub(digits.len())]);
        self.text.put(digits);
        self.text.put(b"  ");
        self.text.put(source_line(&self.lines, module, line));
        self.text.add(b'\n');
        self.shorten(module, line);
        self.above = Some(line);
    }

    /// Adds what stands above a statement.
    fn put_mark(&mut self, module: usize, mark: Mark) {
        match mark.line {
            Some(line) => self.put_source(module, line),
            None => {
                self.above = None;
                self.text.put(b"       end\n");
            }
        }
    }

    /// Adds the lines of the statements that begin at an instruction, from the mark of this number on, and answers the number of the mark
    /// behind them.
    fn put_marks(&mut self, section: &Section, from: usize, index: usize) -> usize {
        for number in from..section.marks.len() {
            let mark = section.marks[number];
            if mark.index != index {
                return number;
            }
            self.put_mark(section.module, mark);
        }
        section.marks.len()
    }

    /// Adds the rows of a part under their statements.
    fn put_rows(&mut self, section: &Section) {
        let mut next: usize = 0;
        let instructions = self.listed.code.instructions(section.routine);
        for (index, instruction) in instructions.iter().enumerate() {
            next = self.put_marks(section, next, index);
            let from = section.place(index);
            let to = section.place(index.saturating_add(1));
            let listed = self.listed;
            listed.put_row(&mut self.text, *instruction, from, to);
        }
    }

    /// Adds a part: its name, the line of its declaration, what saves registers, and its statements.
    fn put_section(&mut self, section: &Section) {
        self.above = None;
        self.text.add(b'\n');
        let listed = self.listed;
        listed.put_name(&mut self.text, section);
        if let Some(line) = section.line {
            self.put_source(section.module, line);
        }
        listed.put_instructions(&mut self.text, section.begin, section.place(0));
        self.put_rows(section)
    }

    fn put_sections(&mut self, sections: &[Section]) {
        for section in sections {
            self.put_section(section);
        }
    }

    /// Adds the names of the parts, and before them start-up's.
    fn put_names(&mut self, sections: &[Section]) {
        let listed = self.listed;
        for section in sections {
            listed.put_name(&mut self.text, section);
        }
    }

    /// Adds start-up, which leads to main.
    fn put_start_up(&mut self) {
        let listed = self.listed;
        self.text.put(b"\nSTART-UP\n");
        listed.put_instructions(&mut self.text, 0, listed.begin);
        let reset = listed.rom.len().saturating_sub(RESET);
        self.text.put(b"\nRESET\n");
        listed.put_line(&mut self.text, reset, listed.rom.len());
    }
}

/// The map's lines.
fn map_lines(alloc: Global, image: &Image, program: &Program) -> Result<Vec<u8>, AllocError>
    ensures { IfOk result (λ lines. lines.items ≡ map_text image.now program.now.names) }
{
    let mut lines = Collected::new(alloc);
    match map(image, program, &mut lines) {
        Ok(()) => {
            let Collected { text, .. } = lines;
            Ok(text)
        }
        Err(_) => Err(AllocError),
    }
}

/// What stands behind the map's lines.
fn parts_text(
    listed: Listed<'_>,
    program: &Program,
    sources: &[NamedText<'_>],
) -> Result<Vec<u8>, Fault> {
    let alloc = listed.alloc;
    let sections = listed.sections(program)?;
    let mut writing = Writing {
        listed,
        lines: all_lines(alloc, sources)?,
        text: Noted::new(alloc),
        above: None,
    };
    writing.put_names(&sections);
    listed.put_ways(&mut writing.text)?;
    writing.put_sections(&sections);
    writing.put_start_up();
    let Writing { text, .. } = writing;
    Ok(text.whole()?)
}

/// The code of a program as a listing: the map's lines, a line for each part with its address, its bytes and its name, the deepest paths of
/// calls; then the parts, for each statement its source line and under it address, bytes and instruction; and start-up. The image is that
/// of the code. Want of memory is its one refusal.
pub fn code_listing(
    alloc: Global,
    sources: &[NamedText<'_>],
    program: &Program,
    code: &Code,
    image: &Image,
) -> Result<Vec<u8>, Fault>
    ensures { IfOk result (λ listed. (behind : List ℕ) × (listed.items ≡ map_text image.now program.now.names ++ behind)) }
{
    let names = program.names();
    let listed = Listed {
        alloc,
        names,
        code,
        rom: &image.rom,
        begin: parts_begin(alloc, names, code)?,
    };
    let behind = parts_text(listed, program, sources)?;
    let mut text = map_lines(alloc, image, program)?;
    text.extend_from_slice(&behind)?;
    Ok(text)
}
