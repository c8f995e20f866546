//! Runs of the code that programs are lowered to, step by step over a store, with accesses worked by hand from the language's rules.

use crate::expect::each;
use crate::sources::{code_of, program_of, seen, then};
use icode::{Code, High, Instruction, LowByte, Machine, RamObjects, Routine, Step, Stop};
use lower::lower;
use plm_decl::{Datum, Names};
use plm_type::Program;
use std::alloc::Global;
use std::process::Abort;
use word86::{Access, Fault, Page, Place, Width};

/// What is stored, byte by byte, the newest last.
type Store = Vec<(Place, u8)>;

fn behind(place: Place) -> Place {
    match place {
        Place::Ram(object, index) => Place::Ram(object, index.wrapping_add(1)),
        Place::Screen(page, index) => Place::Screen(page, index.wrapping_add(1)),
    }
}

/// What was stored at a place last: 5AH where nothing was.
fn byte_at(store: &Store, place: Place) -> u8 {
    for (at, byte) in store.iter().rev() {
        if *at == place {
            return *byte;
        }
    }
    0x5A
}

fn value_at(store: &Store, width: Width, place: Place) -> u16 {
    let low = u16::from(byte_at(store, place));
    match width {
        Width::Byte => low,
        Width::Word => low + 256 * u16::from(byte_at(store, behind(place))),
    }
}

fn put(store: &mut Store, width: Width, place: Place, value: u16) -> Result<(), Fault> {
    store.push((place, (value % 256) as u8))?;
    if width == Width::Word {
        store.push((behind(place), (value / 256) as u8))?;
    }
    Ok(())
}

/// A datum's width, and its value where the objects' offsets are not known.
fn value_of(datum: &Datum) -> (Width, u16) {
    match datum {
        Datum::Byte(byte) => (Width::Byte, u16::from(*byte)),
        Datum::Word(word) => (Width::Word, *word),
        Datum::Variable(_, offset) => (Width::Word, *offset),
        Datum::Constants(_) => (Width::Word, 0),
    }
}

/// An object's initial bytes and words.
fn put_data(store: &mut Store, number: usize, data: &[Datum]) -> Result<(), Fault> {
    let mut index: u16 = 0;
    for datum in data {
        let (width, value) = value_of(datum);
        put(store, width, Place::Ram(number, index), value)?;
        index = index.wrapping_add(if width == Width::Byte { 1 } else { 2 });
    }
    Ok(())
}

/// Those of all objects.
fn first_store(alloc: Global, names: &Names) -> Result<Store, Fault> {
    let mut store = Vec::new(alloc);
    for (number, object) in names.objects.iter().enumerate() {
        put_data(&mut store, number, &object.initial)?;
    }
    Ok(store)
}

/// What is read by the next step.
fn answer_to(store: &Store, access: Option<Access>) -> u16 {
    match access {
        Some(Access::Read(width, place)) => value_at(store, width, place),
        Some(Access::Input(_, _)) => 0xFFFF,
        _ => 0,
    }
}

/// Where a run is looked at no further.
#[derive(Clone, Copy, PartialEq, Eq)]
enum End {
    Halted,
    Stopped(Stop),
    GoesOn,
}

/// What a run has done so far.
#[derive(Drop)]
struct Done {
    store: Store,
    accesses: Vec<Access>,
    halts: u32,
}

impl Done {
    /// An access was made, or none.
    fn keep(&mut self, access: Option<Access>) -> Result<(), Fault> {
        let Some(access) = access else {
            return Ok(());
        };
        self.accesses.push(access)?;
        match access {
            Access::Write(width, place, value) => put(&mut self.store, width, place, value),
            Access::Read(..) | Access::Input(..) | Access::Output(..) => Ok(()),
        }
    }

    /// One step of the machine.
    fn step(&mut self, machine: &mut Machine<'_>) -> Result<Option<Stop>, Fault> {
        let access = machine.access();
        match machine.step(answer_to(&self.store, access)) {
            Err(stop) => return Ok(Some(stop)),
            Ok(Step::Halt) => self.halts = self.halts.saturating_add(1),
            Ok(_) => {}
        }
        self.keep(access)?;
        Ok(None)
    }

    /// Steps up to main's HALT of this number, if it comes there in 4,000 steps.
    fn run(&mut self, machine: &mut Machine<'_>, halts: u32) -> Result<End, Fault> {
        for _ in 0..4000u32 {
            if let Some(stop) = self.step(machine)? {
                return Ok(End::Stopped(stop));
            }
            if self.halts >= halts {
                return Ok(End::Halted);
            }
        }
        Ok(End::GoesOn)
    }
}

fn sizes_of(alloc: Global, names: &Names) -> Result<Vec<u64>, Fault> {
    let mut sizes = Vec::new(alloc);
    for object in &names.objects {
        sizes.push(object.size)?;
    }
    Ok(sizes)
}

/// The accesses of main's steps up to its HALT of this number, and where the run ends.
fn accesses_of(
    alloc: Global,
    code: &Code,
    names: &Names,
    offsets: &[u16],
    halts: u32,
) -> Result<(Vec<Access>, End), Fault> {
    let sizes = sizes_of(alloc, names)?;
    let ram_objects = RamObjects {
        offsets,
        sizes: &sizes,
    };
    let mut machine = Machine::new(alloc, code, ram_objects);
    let mut done = Done {
        store: first_store(alloc, names)?,
        accesses: Vec::new(alloc),
        halts: 0,
    };
    let end = done.run(&mut machine, halts)?;
    Ok((done.accesses, end))
}

fn accesses_by(
    alloc: Global,
    program: &Program,
    offsets: &[u16],
    halts: u32,
) -> Result<(Vec<Access>, End), Fault> {
    then(lower(alloc, program), |code| {
        accesses_of(alloc, code, program.names(), offsets, halts)
    })
}

/// The accesses of the code of these modules.
fn accesses_in(
    alloc: Global,
    texts: &[&[u8]],
    offsets: &[u16],
    halts: u32,
) -> Result<(Vec<Access>, End), Fault> {
    then(program_of(alloc, texts), |program| {
        accesses_by(alloc, program, offsets, halts)
    })
}

const ONE: Access = Access::Output(Width::Byte, 0x300, 1);

/// Modules, their objects' offsets, up to which of main's HALTs they run, the accesses, and the end.
const ROWS: &[(&[&[u8]], &[u16], u32, &[Access], End)] = &[
    (
        &[b"M: DO; DECLARE B BYTE; B = 255; OUTPUT(300H) = B + 1; END M;"],
        &[2],
        1,
        &[
            Access::Write(Width::Byte, Place::Ram(0, 0), 0xFF),
            Access::Read(Width::Byte, Place::Ram(0, 0)),
            Access::Output(Width::Byte, 0x300, 0),
        ],
        End::Halted,
    ),
    // Targets from left to right; what an embedded assignment stores is read after it.
    (
        &[
            b"M: DO; DECLARE A BYTE, B WORD; A, B = 300; OUTPUT(300H) = A; OUTWORD(302H) = B; OUTPUT(304H) = (A := 5) + A; END M;",
        ],
        &[2, 3],
        1,
        &[
            Access::Write(Width::Byte, Place::Ram(0, 0), 44),
            Access::Write(Width::Word, Place::Ram(1, 0), 300),
            Access::Read(Width::Byte, Place::Ram(0, 0)),
            Access::Output(Width::Byte, 0x300, 44),
            Access::Read(Width::Word, Place::Ram(1, 0)),
            Access::Output(Width::Word, 0x302, 300),
            Access::Write(Width::Byte, Place::Ram(0, 0), 5),
            Access::Read(Width::Byte, Place::Ram(0, 0)),
            Access::Output(Width::Byte, 0x304, 10),
        ],
        End::Halted,
    ),
    // A member, a screen word, an element.
    (
        &[
            b"M: DO; DECLARE S(2) STRUCTURE (X BYTE, Y WORD) INITIAL (1, 2, 3, 0405H); OUTWORD(300H) = S(1).Y; OUTPUT(302H) = SIZE(S); OUTPUT(303H) = LAST(S); END M;",
        ],
        &[2],
        1,
        &[
            Access::Read(Width::Word, Place::Ram(0, 4)),
            Access::Output(Width::Word, 0x300, 0x405),
            Access::Output(Width::Byte, 0x302, 6),
            Access::Output(Width::Byte, 0x303, 1),
        ],
        End::Halted,
    ),
    (
        &[b"M: DO; DECLARE S WORD AT (0B8F9EH); S = 0741H; END M;"],
        &[],
        1,
        &[Access::Write(Width::Word, Place::Screen(Page::Colour, 0xF9E), 0x741)],
        End::Halted,
    ),
    (
        &[b"M: DO; DECLARE A(3) BYTE; A(2) = 1; END M;"],
        &[2],
        1,
        &[Access::Write(Width::Byte, Place::Ram(0, 2), 1)],
        End::Halted,
    ),
    // Where a base leads, and a port.
    (
        &[
            b"M: DO; DECLARE A(3) BYTE, P WORD, B BASED P BYTE; P = .A + 1; B = 7; OUTPUT(300H) = A(1); OUTPUT(301H) = INPUT(310H); END M;",
        ],
        &[0x100, 0x110],
        1,
        &[
            Access::Write(Width::Word, Place::Ram(1, 0), 0x101),
            Access::Read(Width::Word, Place::Ram(1, 0)),
            Access::Write(Width::Byte, Place::Ram(0, 1), 7),
            Access::Read(Width::Byte, Place::Ram(0, 1)),
            Access::Output(Width::Byte, 0x300, 7),
            Access::Input(Width::Byte, 0x310),
            Access::Output(Width::Byte, 0x301, 0xFF),
        ],
        End::Halted,
    ),
    (
        &[CALLS, PUTS_NINE],
        &[2],
        1,
        &[
            Access::Write(Width::Byte, Place::Ram(0, 0), 9),
            Access::Read(Width::Byte, Place::Ram(0, 0)),
            Access::Output(Width::Byte, 0x300, 9),
        ],
        End::Halted,
    ),
    // A Bad step makes no access.
    (
        &[b"M: DO; DECLARE A(3) BYTE; A(3) = 1; END M;"],
        &[2],
        1,
        &[],
        End::Stopped(Stop::Bad),
    ),
    (
        &[
            b"M: DO; DECLARE A(3) BYTE, P WORD, B BASED P WORD; OUTPUT(300H) = 1; P = .A + 2; B = 1; END M;",
        ],
        &[0x100, 0x110],
        1,
        &[
            ONE,
            Access::Write(Width::Word, Place::Ram(1, 0), 0x102),
            Access::Read(Width::Word, Place::Ram(1, 0)),
        ],
        End::Stopped(Stop::Bad),
    ),
    (
        &[b"M: DO; DECLARE A BYTE; A = 0; OUTPUT(300H) = 5 MOD A; END M;"],
        &[2],
        1,
        &[
            Access::Write(Width::Byte, Place::Ram(0, 0), 0),
            Access::Read(Width::Byte, Place::Ram(0, 0)),
        ],
        End::Stopped(Stop::Bad),
    ),
    // What is read in place, a constant at an index, and INTEGERs: -1 MOD 2 is -1.
    (
        &[
            b"M: DO; DECLARE I INTEGER, B BYTE, A(3) BYTE; B = 1; IF B THEN A(B) = 7; DO I = -1 TO 0; IF I < 0 THEN OUTWORD(300H) = UNSIGN(I MOD 2); END; END M;",
        ],
        &[2, 4, 5],
        1,
        &[
            Access::Write(Width::Byte, Place::Ram(1, 0), 1),
            Access::Read(Width::Byte, Place::Ram(1, 0)),
            Access::Read(Width::Byte, Place::Ram(1, 0)),
            Access::Write(Width::Byte, Place::Ram(2, 1), 7),
            Access::Write(Width::Word, Place::Ram(0, 0), 0xFFFF),
            Access::Read(Width::Word, Place::Ram(0, 0)),
            Access::Read(Width::Word, Place::Ram(0, 0)),
            Access::Read(Width::Word, Place::Ram(0, 0)),
            Access::Output(Width::Word, 0x300, 0xFFFF),
            Access::Read(Width::Word, Place::Ram(0, 0)),
            Access::Write(Width::Word, Place::Ram(0, 0), 0),
            Access::Read(Width::Word, Place::Ram(0, 0)),
            Access::Read(Width::Word, Place::Ram(0, 0)),
            Access::Read(Width::Word, Place::Ram(0, 0)),
            Access::Write(Width::Word, Place::Ram(0, 0), 1),
            Access::Read(Width::Word, Place::Ram(0, 0)),
        ],
        End::Halted,
    ),
    // Main goes on behind its HALTs.
    (
        &[
            b"M: DO; DECLARE FOREVER LITERALLY 'WHILE 1'; DO FOREVER; OUTPUT(300H) = 1; HALT; END; END M;",
        ],
        &[],
        3,
        &[ONE, ONE, ONE],
        End::Halted,
    ),
    // After its last statement it halts again and again.
    (
        &[
            b"M: DO; OUTPUT(20H) = 13H; OUTPUT(21H) = 8; OUTPUT(21H) = 1; OUTPUT(21H) = 0FEH; OUTPUT(43H) = 14H; OUTPUT(40H) = 4; HALT; OUTPUT(300H) = 1; END M;",
        ],
        &[],
        5,
        &[
            Access::Output(Width::Byte, 0x20, 0x13),
            Access::Output(Width::Byte, 0x21, 8),
            Access::Output(Width::Byte, 0x21, 1),
            Access::Output(Width::Byte, 0x21, 0xFE),
            Access::Output(Width::Byte, 0x43, 0x14),
            Access::Output(Width::Byte, 0x40, 4),
            ONE,
        ],
        End::Halted,
    ),
    // No interrupt comes.
    (
        &[
            b"M: DO; K: PROCEDURE INTERRUPT 9; OUTPUT(300H) = INPUT(60H); OUTPUT(61H) = 80H; OUTPUT(61H) = 0; END K; OUTPUT(63H) = 99H; OUTPUT(20H) = 13H; OUTPUT(21H) = 8; OUTPUT(21H) = 3; OUTPUT(21H) = 0FDH; ENABLE; DO WHILE 1; END; END M;",
        ],
        &[],
        1,
        &[
            Access::Output(Width::Byte, 0x63, 0x99),
            Access::Output(Width::Byte, 0x20, 0x13),
            Access::Output(Width::Byte, 0x21, 8),
            Access::Output(Width::Byte, 0x21, 3),
            Access::Output(Width::Byte, 0x21, 0xFD),
        ],
        End::GoesOn,
    ),
];

/// Whether the modules' code makes these accesses, in this order, and ends so.
fn makes(
    alloc: Global,
    texts: &[&[u8]],
    offsets: &[u16],
    halts: u32,
    wanted: (&[Access], End),
) -> Result<bool, Fault> {
    let (found, end) = accesses_in(alloc, texts, offsets, halts)?;
    Ok((found.as_slice(), end) == wanted)
}

#[test]
fn accesses_are_in_order(rt: HostRuntime) {
    let alloc = rt.alloc();
    each(&rt, ROWS, |(texts, offsets, halts, wanted, end)| {
        makes(alloc, texts, offsets, *halts, (*wanted, *end)) == Ok(true)
    });
}

/// The first byte of an object is read, or gets a value.
fn reads(object: usize) -> Access {
    Access::Read(Width::Byte, Place::Ram(object, 0))
}

fn writes(object: usize, value: u16) -> Access {
    Access::Write(Width::Byte, Place::Ram(object, 0), value)
}

fn sends(port: u16, value: u16) -> Access {
    Access::Output(Width::Byte, port, value)
}

/// The index is compared, sent, and read for the sum; the sum is stored, and wraps at last.
fn rounds_wrap(alloc: Global) -> Result<bool, Fault> {
    let text =
        b"M: DO; DECLARE I BYTE; DO I = 250 TO 255; OUTPUT(300H) = I; END; OUTPUT(301H) = I; END M;";
    let mut wanted = [writes(0, 250)].to_vec(alloc)?;
    for value in 250..256u16 {
        let round = [
            reads(0),
            reads(0),
            sends(0x300, value),
            reads(0),
            writes(0, (value + 1) % 256),
        ];
        wanted.extend_from_slice(&round)?;
    }
    wanted.extend_from_slice(&[reads(0), sends(0x301, 0)])?;
    makes(alloc, &[text], &[2], 1, (wanted.as_slice(), End::Halted))
}

/// In each round the base is read, and then what it leads to: A in each one, as no interrupt comes.
fn rounds_read_the_base(alloc: Global) -> Result<bool, Fault> {
    let text =
        b"M: DO; DECLARE P WORD, A BYTE INITIAL (1), C BYTE INITIAL (2), B BASED P BYTE, I BYTE; H: PROCEDURE INTERRUPT 8; P = .C; END H; OUTPUT(43H) = 14H; OUTPUT(40H) = 2; HALT; P = .A; DO I = 1 TO 200; OUTPUT(300H) = B; END; END M;";
    let base = Place::Ram(0, 0);
    let first = [
        sends(0x43, 0x14),
        sends(0x40, 2),
        Access::Write(Width::Word, base, 4),
        writes(3, 1),
    ];
    let mut wanted = first.to_vec(alloc)?;
    for round in 1..201u16 {
        let accesses = [
            reads(3),
            Access::Read(Width::Word, base),
            reads(1),
            sends(0x300, 1),
            reads(3),
            writes(3, round + 1),
        ];
        wanted.extend_from_slice(&accesses)?;
    }
    wanted.push(reads(3))?;
    let offsets = [2, 4, 5, 6];
    makes(
        alloc,
        &[text],
        &offsets,
        2,
        (wanted.as_slice(), End::Halted),
    )
}

#[test]
fn rounds(rt: HostRuntime) {
    assert!(rt; rounds_wrap(rt.alloc()) == Ok(true));
    assert!(rt; rounds_read_the_base(rt.alloc()) == Ok(true));
}

/// Whether the code has two sections, main in this one, and a procedure in each.
fn has_sections(code: &Code, main: usize) -> bool {
    let [first, second] = code.procedures.as_slice() else {
        return false;
    };
    [code.sections, code.main_module, first.module, second.module] == [2, main, 0, 1]
}

const CALLS: &[u8] =
    b"A: DO; DECLARE X BYTE EXTERNAL; P: PROCEDURE EXTERNAL; END P; CALL P; OUTPUT(300H) = X; END A;";

const PUTS_NINE: &[u8] = b"B: DO; DECLARE X BYTE PUBLIC; P: PROCEDURE PUBLIC; X = 9; END P; END B;";

/// Each module has a section, and one procedure of these. Main stands in the last section where its module is the last.
#[test]
fn modules_have_sections(rt: HostRuntime) {
    const TURNS: &[([&[u8]; 2], usize)] = &[([CALLS, PUTS_NINE], 0), ([PUTS_NINE, CALLS], 1)];
    let alloc = rt.alloc();
    each(&rt, TURNS, |(texts, main)| {
        seen(code_of(alloc, texts), |code| has_sections(code, *main)) == Ok(true)
    });
}

// A procedure that gives no value ends by Leave alone, one that serves a vector by Finish.
const CALLED: &[Instruction] = &[
    Instruction::Low(LowByte::Constant(0), High::Kept),
    Instruction::SendTo(Width::Byte, 0x61),
    Instruction::Leave,
];

const SERVING: &[Instruction] = &[
    Instruction::Low(LowByte::ReceiveFrom(0x60), High::Kept),
    Instruction::SendTo(Width::Byte, 0x300),
    Instruction::Low(LowByte::Constant(0x80), High::Kept),
    Instruction::SendTo(Width::Byte, 0x61),
    Instruction::Invoke(0),
    Instruction::Finish,
];

/// Whether there are those two procedures, of which the second serves vector 9. It calls the other one, which stands before it.
fn is_serving(code: &Code) -> bool {
    code.serving(9) == Routine::Procedure(1)
        && code.serving(8) == Routine::Unserved
        && code.instructions(Routine::Procedure(0)) == CALLED
        && code.instructions(Routine::Procedure(1)) == SERVING
        && code.order.as_slice() == [0, 1].as_slice()
}

#[test]
fn interrupts_are_served(rt: HostRuntime) {
    let text =
        b"M: DO; Q: PROCEDURE; OUTPUT(61H) = 0; END Q; K: PROCEDURE INTERRUPT 9; OUTPUT(300H) = INPUT(60H); OUTPUT(61H) = 80H; CALL Q; END K; ENABLE; DO WHILE 1; END; END M;";
    assert!(rt; seen(code_of(rt.alloc(), &[text]), is_serving) == Ok(true));
}
