//! Small texts: what they declare.

use crate::expect::each;
use crate::sources::{names_of, seen, then};
use plm_decl::{
    Datum, Field, Form, Names, Object, Placement, Procedure, Region, ScalarType, ScreenName,
    Variable,
};
use std::alloc::Global;
use std::process::Abort;
use word86::{Fault, Page};

const BYTE: Form = Form::Scalar(ScalarType::Byte);

const WORD: Form = Form::Scalar(ScalarType::Word);

const POINTER: Form = Form::Scalar(ScalarType::Pointer);

const INTEGER: Form = Form::Scalar(ScalarType::Integer);

/// A variable's form, dimension, stride and region.
type WantedVariable = (Form, Option<u32>, u64, Region);

/// An object's path, size and initial values.
type WantedObject = (&'static [u8], u64, &'static [Datum]);

fn is_variable(variable: &Variable, wanted: &WantedVariable) -> bool {
    let (form, dimension, stride, region) = *wanted;
    variable.form == form
        && variable.dimension == dimension
        && variable.stride == stride
        && variable.region == region
}

fn are_variables(variables: &[Variable], wanted: &[WantedVariable]) -> bool {
    if variables.len() != wanted.len() {
        return false;
    }
    for (variable, wanted) in variables.iter().zip(wanted) {
        if !is_variable(variable, wanted) {
            return false;
        }
    }
    true
}

fn are_objects(objects: &[Object], wanted: &[WantedObject]) -> bool {
    if objects.len() != wanted.len() {
        return false;
    }
    for (object, (path, size, initial)) in objects.iter().zip(wanted) {
        if object.path.as_slice() != *path
            || object.size != *size
            || object.initial.as_slice() != *initial
        {
            return false;
        }
    }
    true
}

/// What texts declare, worked by hand.
const DECLARED: &[(&[u8], &[WantedVariable], &[WantedObject])] = &[
    (
        b"M: DO; DECLARE V (*) INTEGER INITIAL (-32768, 32767, -1, -0); ; END M;",
        &[(INTEGER, Some(4), 2, Region::Ram(0, 0))],
        &[(
            b"M.V",
            8,
            &[
                Datum::Word(0x8000),
                Datum::Word(0x7FFF),
                Datum::Word(0xFFFF),
                Datum::Word(0),
            ],
        )],
    ),
    (
        b"M: DO; DECLARE S STRUCTURE (X (2) BYTE, Y INTEGER) INITIAL ('AB', -2), K INTEGER; ; END M;",
        &[
            (Form::Structure(0), None, 4, Region::Ram(0, 0)),
            (INTEGER, None, 2, Region::Ram(1, 0)),
        ],
        &[
            (
                b"M.S",
                4,
                &[Datum::Byte(0x41), Datum::Byte(0x42), Datum::Word(0xFFFE)],
            ),
            (b"M.K", 2, &[]),
        ],
    ),
    (
        b"M: DO; DECLARE A (5) BYTE INITIAL ('A''B', 1, -1); ; END M;",
        &[(BYTE, Some(5), 1, Region::Ram(0, 0))],
        &[(
            b"M.A",
            5,
            &[
                Datum::Byte(0x41),
                Datum::Byte(0x27),
                Datum::Byte(0x42),
                Datum::Byte(1),
                Datum::Byte(0xFF),
            ],
        )],
    ),
    (
        b"M: DO; DECLARE A (3) BYTE, W (4) WORD INITIAL ('AB', 0405H, -2, .A(2)); ; END M;",
        &[
            (BYTE, Some(3), 1, Region::Ram(0, 0)),
            (WORD, Some(4), 2, Region::Ram(1, 0)),
        ],
        &[
            (b"M.A", 3, &[]),
            (
                b"M.W",
                8,
                &[
                    Datum::Word(0x4142),
                    Datum::Word(0x0405),
                    Datum::Word(0xFFFE),
                    Datum::Variable(0, 2),
                ],
            ),
        ],
    ),
    (
        b"M: DO; DECLARE P (2) POINTER INITIAL (@('Q', 255), @P(1)); ; END M;",
        &[(POINTER, Some(2), 2, Region::Ram(0, 0))],
        &[
            (b"M.P", 4, &[Datum::Constants(1), Datum::Variable(0, 2)]),
            (b"M.#S1", 2, &[Datum::Byte(0x51), Datum::Byte(0xFF)]),
        ],
    ),
    (
        b"M: DO; DECLARE (A, B) (2) BYTE INITIAL (1, 2, 3); ; END M;",
        &[
            (BYTE, Some(2), 1, Region::Ram(0, 0)),
            (BYTE, Some(2), 1, Region::Ram(1, 0)),
        ],
        &[
            (b"M.A", 2, &[Datum::Byte(1), Datum::Byte(2)]),
            (b"M.B", 2, &[Datum::Byte(3)]),
        ],
    ),
    (
        b"M: DO; DECLARE S (2) STRUCTURE (X BYTE, Y WORD) INITIAL (1, 0203H, 4); ; END M;",
        &[(Form::Structure(0), Some(2), 3, Region::Ram(0, 0))],
        &[(
            b"M.S",
            6,
            &[Datum::Byte(1), Datum::Word(0x0203), Datum::Byte(4)],
        )],
    ),
    (
        b"M: DO; DECLARE V (4) BYTE, W WORD AT (@V(1)), (C, D) BYTE AT (.W); ; END M;",
        &[
            (BYTE, Some(4), 1, Region::Ram(0, 0)),
            (WORD, None, 2, Region::Ram(0, 1)),
            (BYTE, None, 1, Region::Ram(0, 1)),
            (BYTE, None, 1, Region::Ram(0, 2)),
        ],
        &[(b"M.V", 4, &[])],
    ),
    (
        b"M: DO; DECLARE S (2) STRUCTURE (X BYTE, Y (3) WORD), A WORD AT (.S(1).Y(2)), B (7) BYTE AT (@S(1)); ; END M;",
        &[
            (Form::Structure(0), Some(2), 7, Region::Ram(0, 0)),
            (WORD, None, 2, Region::Ram(0, 12)),
            (BYTE, Some(7), 1, Region::Ram(0, 7)),
        ],
        &[(b"M.S", 14, &[])],
    ),
    (
        b"M: DO; DECLARE P POINTER, (B BASED P, C) (5) BYTE, Q ADDRESS, D BASED Q STRUCTURE (X POINTER); ; END M;",
        &[
            (POINTER, None, 2, Region::Ram(0, 0)),
            (BYTE, Some(5), 1, Region::Based(0)),
            (BYTE, Some(5), 1, Region::Ram(1, 0)),
            (WORD, None, 2, Region::Ram(2, 0)),
            (Form::Structure(0), None, 2, Region::Based(3)),
        ],
        &[(b"M.P", 2, &[]), (b"M.C", 5, &[]), (b"M.Q", 2, &[])],
    ),
    (
        b"M: DO; DECLARE A (*) WORD INITIAL (1, 'AB', .A), T (*) STRUCTURE (X BYTE, Y (2) BYTE) DATA ('CDEF'); ; END M;",
        &[
            (WORD, Some(3), 2, Region::Ram(0, 0)),
            (Form::Structure(0), Some(2), 3, Region::Ram(1, 0)),
        ],
        &[
            (
                b"M.A",
                6,
                &[Datum::Word(1), Datum::Word(0x4142), Datum::Variable(0, 0)],
            ),
            (
                b"M.T",
                6,
                &[
                    Datum::Byte(0x43),
                    Datum::Byte(0x44),
                    Datum::Byte(0x45),
                    Datum::Byte(0x46),
                ],
            ),
        ],
    ),
    (
        b"M: DO; DECLARE (E, F) WORD AT (0B8010H), G BYTE DATA (9); ; END M;",
        &[
            (WORD, None, 2, Region::Screen(Page::Colour, 16)),
            (WORD, None, 2, Region::Screen(Page::Colour, 18)),
            (BYTE, None, 1, Region::Ram(0, 0)),
        ],
        &[(b"M.G", 1, &[Datum::Byte(9)])],
    ),
];

/// Whether this is so of what the modules declare.
fn holds_of<F: FnOnce(&Names) -> bool>(alloc: Global, texts: &[&[u8]], look: F) -> bool
    requires { F.IsAlwaysCallable look }
{
    seen(names_of(alloc, texts), look) == Ok(true)
}

#[test]
fn contents_of_declarations(rt: HostRuntime) {
    let alloc = rt.alloc();
    each(&rt, DECLARED, |(text, variables, objects)| {
        holds_of(alloc, &[*text], |names| {
            are_variables(&names.variables, variables) && are_objects(&names.objects, objects)
        })
    });
}

/// A name's size, its page and its offset there, and how many objects stand before it.
type ScreenPlace = (u64, Page, u64, usize);

fn is_on_screen(name: &ScreenName, path: &[u8], place: ScreenPlace) -> bool {
    name.path.as_slice() == path
        && (name.size, name.page, name.offset, name.objects_before) == place
}

/// Whether the names on the screen are E and F, of six bytes each, one after the other on this page.
fn shows_e_and_f(names: &Names, page: Page) -> bool {
    let [first, second] = names.screen_names.as_slice() else {
        return false;
    };
    is_on_screen(first, b"M.E", (6, page, 16, 1)) && is_on_screen(second, b"M.F", (6, page, 22, 1))
}

/// A member's name, dimension and offset.
type WantedField = (&'static [u8], Option<u32>, u64);

fn are_fields(fields: &[Field], wanted: &[WantedField]) -> bool {
    if fields.len() != wanted.len() {
        return false;
    }
    for (field, (name, dimension, offset)) in fields.iter().zip(wanted) {
        let member = field.member;
        if field.name.as_slice() != *name
            || member.dimension != *dimension
            || member.offset != *offset
        {
            return false;
        }
    }
    true
}

/// Whether there is one structure, of 11 bytes and 6 scalars, with the members X, Y, Z and Q.
fn has_four_members(names: &Names) -> bool {
    const FIELDS: &[WantedField] = &[
        (b"X", None, 0),
        (b"Y", Some(2), 1),
        (b"Z", Some(2), 5),
        (b"Q", None, 9),
    ];
    let [structure] = names.structures.as_slice() else {
        return false;
    };
    (structure.size, structure.scalars) == (11, 6) && are_fields(&structure.fields, FIELDS)
}

/// Whether the procedures are a PUBLIC one and the EXTERNAL one that it is joined to, each with its parameter.
fn are_joined(procedures: &[Procedure]) -> bool {
    let [public, external] = procedures else {
        return false;
    };
    (public.entry, external.entry) == (0, 0)
        && public.parameters.as_slice() == [3].as_slice()
        && external.parameters.as_slice() == [6].as_slice()
}

/// The variables of three modules, of which the later ones name those of the earlier ones, and the other way round.
const JOINED: &[WantedVariable] = &[
    (WORD, None, 2, Region::Ram(0, 0)),
    (WORD, None, 2, Region::Ram(1, 0)),
    (BYTE, Some(3), 1, Region::Ram(3, 0)),
    (BYTE, None, 1, Region::Ram(2, 0)),
    (WORD, None, 2, Region::Ram(1, 0)),
    (BYTE, Some(3), 1, Region::Ram(3, 0)),
    (BYTE, None, 1, Region::Nowhere),
    (BYTE, Some(3), 1, Region::Ram(3, 0)),
    (WORD, None, 2, Region::Ram(1, 0)),
];

/// Whether the variables are those, the procedures are joined, and main is that of the second module.
fn joins(names: &Names) -> bool {
    are_variables(&names.variables, JOINED)
        && are_joined(&names.procedures)
        && names.main.module == 1
}

/// The objects in RAM, in the order of their declarations: each has a path and a number of bytes.
const OBJECTS: &[(&[u8], u64)] = &[
    (b"M.W", 2),
    (b"M.P", 2),
    (b"M.#S1", 2),
    (b"M.A", 3),
    (b"M.B1", 3),
    (b"M.Q.Y", 1),
    (b"M.Q.X", 2),
    (b"M.Q.#1.Z", 1),
    (b"M.Q.L.V", 2),
    (b"M.Q.L.#S2", 1),
    (b"M.#2.E.J", 1),
];

/// Whether the objects are those.
fn has_objects(names: &Names) -> bool {
    if names.objects.len() != OBJECTS.len() {
        return false;
    }
    for (object, (path, size)) in names.objects.iter().zip(OBJECTS) {
        if object.path.as_slice() != *path || object.size != *size {
            return false;
        }
    }
    true
}

const ON_COLOUR: &[u8] = b"M: DO; DECLARE G BYTE DATA (9), (E, F) (3) WORD AT (0B8010H); ; END M;";

const ON_MONOCHROME: &[u8] =
    b"M: DO; DECLARE G BYTE DATA (9), (E, F) (3) WORD AT (0B0010H); ; END M;";

const FOUR_MEMBERS: &[u8] =
    b"M: DO; DECLARE S STRUCTURE (X BYTE, (y, Z$) (2) WORD, Q POINTER); ; END M;";

const FIRST: &[u8] =
    b"A: DO; DECLARE (L, X) WORD PUBLIC, W (3) BYTE EXTERNAL; P: PROCEDURE (N) PUBLIC; DECLARE N BYTE; END P; END A;";

const SECOND: &[u8] =
    b"B: DO; DECLARE X WORD EXTERNAL, W (3) BYTE PUBLIC; P: PROCEDURE (K) EXTERNAL; DECLARE K BYTE; END P; CALL P(1); END B;";

const THIRD: &[u8] = b"C: DO; DECLARE W (3) BYTE EXTERNAL, X WORD EXTERNAL; END C;";

const BLOCKS: &[u8] =
    b"M: DO; DECLARE W WORD, S BYTE AT (0B8000H), P POINTER INITIAL (@('AB')), (A, b$1) (3) BYTE;
        Q: PROCEDURE (X, Y); DECLARE Y BYTE, X WORD; DO; DECLARE Z BYTE; END; L: DO; DECLARE V WORD; V = .(1); END; END Q;
        E: PROCEDURE (I) EXTERNAL; DECLARE I BYTE; END E; DO; E: PROCEDURE (J) PUBLIC; DECLARE J BYTE; END E; END; END M;";

#[test]
fn names_of_programs(rt: HostRuntime) {
    let alloc = rt.alloc();
    assert!(rt;
        holds_of(
            alloc,
            &[ON_COLOUR],
            |names| shows_e_and_f(names, Page::Colour)
        )
    );
    assert!(rt;
        holds_of(
            alloc,
            &[ON_MONOCHROME],
            |names| shows_e_and_f(names, Page::Monochrome)
        )
    );
    assert!(rt; holds_of(alloc, &[FOUR_MEMBERS], has_four_members));
    assert!(rt; holds_of(alloc, &[FIRST, SECOND, THIRD], joins));
    assert!(rt; holds_of(alloc, &[BLOCKS], has_objects));
}

/// Offsets of two words, and whether they may lie there.
const OFFSETS: &[([u16; 2], bool)] = &[
    ([2, 4], true),
    ([0xEFFE, 2], true),
    ([2, 3], false),
    ([4, 4], false),
    ([1, 4], false),
    ([2, 0xEFFF], false),
];

/// Whether a placement by these offsets fits the names, and has the offsets.
fn placed(alloc: Global, names: &Names, offsets: &[u16]) -> Result<(bool, bool), Fault> {
    let placement = Placement::of(Vec::from_slice(alloc, offsets)?);
    Ok((placement.fits(names), placement.offsets() == offsets))
}

#[test]
fn placements(rt: HostRuntime) {
    let alloc = rt.alloc();
    each(&rt, OFFSETS, |(offsets, fits)| {
        let words = names_of(alloc, &[b"M: DO; DECLARE (A, B) WORD; ; END M;"]);
        then(words, |names| placed(alloc, names, offsets)) == Ok((*fits, true))
    });
}
