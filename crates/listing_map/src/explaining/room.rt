//! What is told of programs that are too large: E501 and E601.

use crate::explaining::program_faults::{Large, put_largest, total_of};
use crate::explaining::sentence::{Part, put_all_parts, sentence};
use crate::explaining::told::{Told, tell_so};
use crate::noted::Noted;
use crate::routines::{path_of, procedure_path, routines_of};
use crate::stack_paths::{Deep, Way, deepest_way, deeps_of, handler_ways, main_way};
use frames::count;
use icode::{Code, Routine};
use layout_link::{RESET, RomSize, StartUpRoom, link, start_up_room};
use plm_decl::{Datum, Names, Object};
use select::{Part as CodePart, select};
use std::alloc::{AllocError, Global};
use word86::{Fault, STACK_ROOM};

/// What sources are compiled to: what is told of a stack or a ROM without room goes by it.
#[derive(Clone, Copy)]
pub struct Compiled<'p> {
    /// The code of all procedures and of main, before instructions are chosen.
    pub code: &'p Code,
    /// The names of the same program.
    pub names: &'p Names,
    /// Of the ROM that was wanted.
    pub size: RomSize,
}

/// The sizes that a ROM may have.
const SIZES: &[(RomSize, u64)] = &[
    (RomSize::Kib8, 8),
    (RomSize::Kib16, 16),
    (RomSize::Kib32, 32),
    (RomSize::Kib64, 64),
];

/// Start-up and the parts of a program, each with its bytes of code.
fn code_sizes<'n>(
    alloc: Global,
    compiled: Compiled<'n>,
    parts: &[CodePart],
    start_up: StartUpRoom,
) -> Result<Vec<Large<'n>>, AllocError> {
    let mut routines = routines_of(alloc, compiled.code)?;
    routines.push(Routine::Unserved)?;
    let mut all: Vec<Large<'n>> = Vec::new(alloc);
    all.push(Large {
        name: b"start-up",
        bytes: start_up.code as u64,
    })?;
    for (part, routine) in parts.iter().zip(&routines) {
        all.push(Large {
            name: path_of(compiled.names, *routine),
            bytes: part.bytes.len() as u64,
        })?;
    }
    Ok(all)
}

/// How many bytes a value has.
fn datum_size(datum: Datum) -> u64 {
    match datum {
        Datum::Byte(_) => 1,
        Datum::Word(_) | Datum::Variable(_, _) | Datum::Constants(_) => 2,
    }
}

/// The bytes of an object that have values at start.
fn initial_size(object: &Object) -> u64 {
    let mut size: u64 = 0;
    for datum in &object.initial {
        size = size.saturating_add(datum_size(*datum));
    }
    size
}

/// Adds the objects with initial values, each with the bytes that have some.
fn push_initial<'n>(all: &mut Vec<Large<'n>>, names: &'n Names) -> Result<(), AllocError> {
    for object in &names.objects {
        let bytes = initial_size(object);
        if bytes > 0 {
            all.push(Large {
                name: object.path.as_slice(),
                bytes,
            })?;
        }
    }
    Ok(())
}

/// Whether a ROM of this size has room for the program.
fn has_room(alloc: Global, compiled: Compiled<'_>, size: RomSize) -> Result<bool, Fault> {
    let stack = count(alloc, compiled.code)?;
    let parts = select(alloc, compiled.code)?;
    match link(alloc, parts, compiled.names, stack, size) {
        Ok(_) => Ok(true),
        Err(Fault::At(_, _, _)) => Ok(false),
        Err(Fault::Memory) => Err(Fault::Memory),
    }
}

/// The least size whose ROM has room for the program, in KiB.
fn enough(alloc: Global, compiled: Compiled<'_>) -> Result<Option<u64>, Fault> {
    for (size, kib) in SIZES {
        if has_room(alloc, compiled, *size)? {
            return Ok(Some(*kib));
        }
    }
    Ok(None)
}

/// Adds which size of a ROM has room, if one has.
fn put_enough(text: &mut Noted<u8>, enough: Option<u64>) {
    match enough {
        Some(kib) => {
            let parts = [
                Part::Words("; -r "),
                Part::Number(kib),
                Part::Words(" has room"),
            ];
            put_all_parts(text, &parts);
        }
        None => put_all_parts(text, &[Part::Words("; no size has room")]),
    }
}

/// How many bytes a ROM of this size wants to have, and has.
fn lacking_room(alloc: Global, wanted: u64, size: RomSize) -> Noted<u8> {
    let room = size.bytes().saturating_sub(RESET);
    let parts = [
        Part::Words("start-up, code and initial values have "),
        Part::Number(wanted),
        Part::Words(" bytes, and the ROM has room for "),
        Part::Number(room as u64),
        Part::Words(": "),
    ];
    sentence(alloc, &parts)
}

/// What is told of E601, of a program with these parts and such a start-up.
fn full_of_parts(
    alloc: Global,
    compiled: Compiled<'_>,
    parts: &[CodePart],
    start_up: StartUpRoom,
) -> Result<Told, Fault> {
    let mut sizes = code_sizes(alloc, compiled, parts, start_up)?;
    let wanted = total_of(&sizes).saturating_add(start_up.copied as u64);
    push_initial(&mut sizes, compiled.names)?;
    let mut help = lacking_room(alloc, wanted, compiled.size);
    put_largest(&mut help, &mut sizes)?;
    put_enough(&mut help, enough(alloc, compiled)?);
    Ok(tell_so(None, help))
}

/// What is told of E601.
pub(crate) fn full_rom(alloc: Global, compiled: Compiled<'_>) -> Result<Told, Fault> {
    let parts = select(alloc, compiled.code)?;
    let start_up = start_up_room(alloc, &parts, compiled.names)?;
    full_of_parts(alloc, compiled, &parts, start_up)
}

/// Adds the first three procedures of a way, and whether there are more.
fn put_way(text: &mut Noted<u8>, names: &Names, deeps: &[Deep], way: Way) {
    let mut at = way.first;
    for step in 0..3 {
        let Some(number) = at else {
            return;
        };
        let parts = [
            Part::Words(if step == 0 { " by " } else { ", which calls " }),
            Part::Spelled(procedure_path(names, number)),
        ];
        put_all_parts(text, &parts);
        at = match deeps.get(number) {
            Some(deep) => deep.next,
            None => None,
        };
    }
    match at {
        Some(_) => put_all_parts(text, &[Part::Words(" and so on")]),
        None => {}
    }
}

/// What is told of E501.
pub(crate) fn full_stack(alloc: Global, compiled: Compiled<'_>) -> Result<Told, Fault> {
    let Compiled {
        code,
        names,
        size: _,
    } = compiled;
    let deeps = deeps_of(alloc, code)?;
    let main = main_way(code, &deeps);
    let handler = deepest_way(&handler_ways(alloc, code, &deeps)?);
    let mut help = sentence(
        alloc,
        &[
            Part::Words("the stack has "),
            Part::Number(u64::from(STACK_ROOM)),
            Part::Words(" bytes, 2 for each call and each value that waits: main wants "),
            Part::Number(main.bytes),
        ],
    );
    put_way(&mut help, names, &deeps, main);
    let parts = [Part::Words("; an interrupt "), Part::Number(handler.bytes)];
    put_all_parts(&mut help, &parts);
    put_way(&mut help, names, &deeps, handler);
    Ok(tell_so(None, help))
}
