//! Steps of small programs, with traces written by hand from the language's rules.

use crate::expect::each;
use crate::sources::{program_of, then};
use plm_decl::Placement;
use plm_meaning::{Choice, Meaning, Step, Stop};
use plm_type::{Line, Program};
use std::alloc::Global;
use std::process::Abort;
use word86::{Event, Fault, Label, Number, PowerOn};

const HERE: Line = Line { module: 0, line: 1 };

/// The first state of a program, where the placement fits it; RAM holds this byte everywhere.
fn opened<'a>(
    alloc: Global,
    program: &'a Program,
    placement: &'a Placement,
    byte: u8,
) -> Result<Meaning<'a>, Fault> {
    if placement.fits(program.names()) {
        Meaning::new(alloc, program, placement, PowerOn::filled(alloc, byte)?)
    } else {
        Err(Fault::At(0, 1, Number::E310))
    }
}

/// A run's labels, and why it ends, if it does.
type Run = (Vec<Label>, Option<Stop>);

/// The labels of the program's steps, as far as they can be made.
fn run_on(alloc: Global, meaning: &mut Meaning<'_>) -> Result<Run, Fault> {
    let mut labels = Vec::new(alloc);
    for _ in 0..2000u32 {
        match meaning.step(Choice::Program) {
            Err(stop) => return Ok((labels, Some(stop))),
            Ok(step) => put_label(&mut labels, step.label)?,
        }
    }
    Ok((labels, None))
}

fn put_label(labels: &mut Vec<Label>, label: Option<Label>) -> Result<(), Fault> {
    if let Some(label) = label {
        labels.push(label)?;
    }
    Ok(())
}

/// The run of a program whose objects lie at these offsets; RAM holds 5AH everywhere.
fn run_of(alloc: Global, program: &Program, offsets: &[u16]) -> Result<Run, Fault> {
    let placement = Placement::of(offsets.to_vec(alloc)?);
    let mut meaning = opened(alloc, program, &placement, 0x5A)?;
    run_on(alloc, &mut meaning)
}

/// The run of a text.
fn run(alloc: Global, text: &[u8], offsets: &[u16]) -> Result<Run, Fault> {
    then(program_of(alloc, &[text]), |program| {
        run_of(alloc, program, offsets)
    })
}

/// Texts, their objects' offsets, their labels, and why they end.
const PLACED: &[(&[u8], &[u16], &[Label], Stop)] = &[
    // The next object holds the second byte: still no one object holds both.
    (
        b"M: DO; DECLARE A(3) BYTE, P WORD, B BASED P WORD; P = .A + 2; B = 1; END M;",
        &[0x100, 0x103],
        &[],
        Stop::Bad(HERE),
    ),
    (
        b"M: DO; DECLARE A(3) BYTE, P WORD, B BASED P WORD; P = .A + 2; B = 1; END M;",
        &[0x100, 0x110],
        &[],
        Stop::Bad(HERE),
    ),
    // The objects need not lie in their order.
    (
        b"M: DO; DECLARE A(3) BYTE, C(2) BYTE, P WORD, B BASED P BYTE; P = .C + 1; B = 7; P = .A; B = 8; OUTPUT(300H) = C(1); OUTPUT(301H) = A(0); END M;",
        &[0x110, 0x100, 0x200],
        &[Label::Out(0x300, 7), Label::Out(0x301, 8)],
        Stop::NotAllowed,
    ),
    (
        b"M: DO; DECLARE A(2) WORD INITIAL (0102H, .A(1)); OUTWORD(300H) = A(0); OUTWORD(302H) = A(1); END M;",
        &[0x1234],
        &[Label::OutW(0x300, 0x0102), Label::OutW(0x302, 0x1236)],
        Stop::NotAllowed,
    ),
];

/// Whether the run of a text has these labels, and stops so.
fn runs_so(
    alloc: Global,
    text: &[u8],
    offsets: &[u16],
    wanted: (&[Label], Stop),
) -> Result<bool, Fault> {
    let (labels, stopped) = run(alloc, text, offsets)?;
    let (shown, stop) = wanted;
    Ok(labels.as_slice() == shown && stopped == Some(stop))
}

/// Main takes its steps up to its HALT or a Bad one, wherever the objects lie.
#[test]
fn objects_lie_anywhere(rt: HostRuntime) {
    let alloc = rt.alloc();
    each(&rt, PLACED, |(text, offsets, labels, stop)| {
        runs_so(alloc, text, offsets, (*labels, *stop)) == Ok(true)
    });
}

/// A choice, and what it does.
type Try = (Choice, Result<Step, Stop>);

const REFUSED: Result<Step, Stop> = Err(Stop::NotAllowed);

const SILENT: Result<Step, Stop> = Ok(Step { label: None });

/// Whether the choices, one after the other, do this, and it is told where an interrupt can be taken.
fn does(meaning: &mut Meaning<'_>, rows: &[Try]) -> bool {
    for (choice, wanted) in rows {
        if *choice == Choice::Enter && meaning.is_interrupted() != wanted.is_ok() {
            return false;
        }
        if meaning.step(*choice) != *wanted {
            return false;
        }
    }
    true
}

/// The same for a program's first state, after so many silent steps and an event.
fn does_then(
    alloc: Global,
    program: &Program,
    set_up: (u32, Option<Event>),
    rows: &[Try],
) -> Result<bool, Fault> {
    let placement = Placement::of(Vec::new(alloc));
    let mut meaning = opened(alloc, program, &placement, 0)?;
    let (steps, event) = set_up;
    for _ in 0..steps {
        let _ = meaning.step(Choice::Program);
    }
    if let Some(event) = event {
        let _ = meaning.step(Choice::Event(event));
    }
    Ok(does(&mut meaning, rows))
}

/// A program whose interrupts from the timer are set up by eighteen steps, and come with automatic end; then the interrupt is asked for.
const ASKED: (u32, Option<Event>) = (18, Some(Event::Tick(3)));

const ENTERED: Result<Step, Stop> = Ok(Step {
    label: Some(Label::Ack(8)),
});

const TICKED: Result<Step, Stop> = Ok(Step {
    label: Some(Label::Tick(4)),
});

/// Texts, how many silent steps and which event come first, and the choices that are tried then.
const CHOICES: &[(&[u8], (u32, Option<Event>), &[Try])] = &[
    (
        b"M: DO; ; END M;",
        (0, None),
        &[
            (Choice::Enter, REFUSED),
            (Choice::Leave, REFUSED),
            (Choice::Idle, REFUSED),
            (Choice::Program, SILENT),
            (Choice::Program, SILENT),
            (Choice::Program, REFUSED),
            (Choice::Idle, SILENT),
            (
                Choice::Event(Event::Key(3)),
                Ok(Step {
                    label: Some(Label::Key(3)),
                }),
            ),
        ],
    ),
    (
        b"M: DO; H: PROCEDURE INTERRUPT 8; END H; OUTPUT(20H) = 13H; OUTPUT(21H) = 8; OUTPUT(21H) = 3; OUTPUT(21H) = 0FEH; OUTPUT(43H) = 14H; OUTPUT(40H) = 2; ENABLE; ; ; ; ; ; ; ; ; ; ; END M;",
        ASKED,
        &[
            // Interrupts are off: it may not be entered.
            (Choice::Enter, REFUSED),
            // ENABLE, and then eight silent steps and no ninth.
            (Choice::Program, SILENT),
            (Choice::Program, SILENT),
            (Choice::Program, SILENT),
            (Choice::Program, SILENT),
            (Choice::Program, SILENT),
            (Choice::Program, SILENT),
            (Choice::Program, SILENT),
            (Choice::Program, SILENT),
            (Choice::Program, SILENT),
            (Choice::Program, REFUSED),
            (Choice::Enter, ENTERED),
            // It runs with interrupts off, and is used up at once.
            (Choice::Enter, REFUSED),
            (Choice::Program, REFUSED),
            (Choice::Leave, SILENT),
            (Choice::Enter, REFUSED),
            // The ninth step comes now, and so does a second interrupt.
            (Choice::Program, SILENT),
            (Choice::Event(Event::Tick(4)), TICKED),
            (Choice::Enter, ENTERED),
            (Choice::Leave, SILENT),
        ],
    ),
    (
        b"M: DO; OUTPUT(20H) = 13H; OUTPUT(21H) = 8; OUTPUT(21H) = 3; OUTPUT(21H) = 0FEH; OUTPUT(43H) = 14H; OUTPUT(40H) = 2; ENABLE; ENABLE; ENABLE; END M;",
        ASKED,
        &[
            // The first switches interrupts on; one more may come before the interrupt, and no second.
            (Choice::Program, SILENT),
            (Choice::Program, SILENT),
            (Choice::Program, REFUSED),
            (Choice::Enter, ENTERED),
            (Choice::Leave, SILENT),
            (Choice::Program, SILENT),
        ],
    ),
    (
        b"M: DO; H: PROCEDURE INTERRUPT 8; END H; OUTPUT(20H) = 13H; OUTPUT(21H) = 8; OUTPUT(21H) = 3; OUTPUT(21H) = 0FEH; OUTPUT(43H) = 14H; OUTPUT(40H) = 2; HALT; END M;",
        ASKED,
        &[
            (Choice::Enter, REFUSED),
            // HALT switches interrupts on. Main takes no step and does not wait: the interrupt comes.
            (Choice::Program, SILENT),
            (Choice::Program, REFUSED),
            (Choice::Idle, REFUSED),
            (Choice::Enter, ENTERED),
            (Choice::Leave, SILENT),
            // At its end main halts again, and waits for the next one.
            (Choice::Enter, REFUSED),
            (Choice::Program, SILENT),
            (Choice::Program, REFUSED),
            (Choice::Idle, SILENT),
            (Choice::Enter, REFUSED),
            (Choice::Event(Event::Tick(4)), TICKED),
            (Choice::Idle, REFUSED),
            (Choice::Enter, ENTERED),
        ],
    ),
];

#[test]
fn chooses_what_is_allowed(rt: HostRuntime) {
    let alloc = rt.alloc();
    each(&rt, CHOICES, |(text, set_up, rows)| {
        then(program_of(alloc, &[*text]), |program| {
            does_then(alloc, program, *set_up, rows)
        }) == Ok(true)
    });
}
