//! How many bytes of the stack the calls of a program take, and along which procedures.

use frames::{height_after, saved};
use icode::{Code, Instruction, Registers, Routine};
use std::alloc::{AllocError, Global};
use word86::Fault;

/// What a routine and what it calls push at most, in words, and by which call.
#[derive(Clone, Copy)]
pub(crate) struct Deep {
    pub words: u64,
    /// The number of the procedure that is called there.
    pub next: Option<usize>,
}

const NOTHING: Deep = Deep {
    words: 0,
    next: None,
};

/// More values than any routine pushes.
const HIGH: usize = 1_000_000;

/// What an interrupt pushes first, in words: the flags and where main goes on.
const ENTRY: u64 = 3;

/// The procedure that an instruction calls.
fn called(instruction: Instruction) -> Option<usize> {
    match instruction {
        Instruction::Invoke(number) => Some(number),
        Instruction::Constant(_)
        | Instruction::Locate(_)
        | Instruction::LocateAt(_)
        | Instruction::Load(_, _)
        | Instruction::LoadAt(_, _)
        | Instruction::LoadThere(_)
        | Instruction::Low(_, _)
        | Instruction::Push
        | Instruction::Pick(_)
        | Instruction::Drop(_)
        | Instruction::Unary(_, _)
        | Instruction::Binary(_, _)
        | Instruction::BinaryConstant(_, _, _)
        | Instruction::BinaryPlain(_, _, _, _)
        | Instruction::Store(_, _)
        | Instruction::StoreAt(_, _)
        | Instruction::StoreThere(_)
        | Instruction::StoreTop(_, _)
        | Instruction::StoreConstantAt(_, _, _)
        | Instruction::Send(_)
        | Instruction::SendTo(_, _)
        | Instruction::Receive(_)
        | Instruction::ReceiveFrom(_, _)
        | Instruction::Ahead(_)
        | Instruction::AheadUnless(_, _)
        | Instruction::Back(_)
        | Instruction::BackUnless(_, _)
        | Instruction::Next(_, _, _, _)
        | Instruction::Switch(_)
        | Instruction::Case(_)
        | Instruction::Leave
        | Instruction::Enable
        | Instruction::Disable
        | Instruction::Halt
        | Instruction::Finish => None,
    }
}

fn deep_at(deeps: &[Deep], number: usize) -> Deep {
    match deeps.get(number) {
        Some(deep) => *deep,
        None => NOTHING,
    }
}

fn deeper(one: Deep, other: Deep) -> Deep {
    if other.words > one.words { other } else { one }
}

/// What is pushed at an instruction at which its routine has pushed so many values.
fn met(deeps: &[Deep], instruction: Instruction, height: usize) -> Deep {
    let own = height as u64;
    match called(instruction) {
        Some(number) => {
            let below = deep_at(deeps, number).words.saturating_add(1);
            Deep {
                words: own.saturating_add(below),
                next: Some(number),
            }
        }
        None => Deep {
            words: own,
            next: None,
        },
    }
}

/// Of a routine with these instructions, where that of the procedures that it calls is known.
pub(crate) fn deep_of(deeps: &[Deep], instructions: &[Instruction]) -> Deep {
    let mut height: usize = 0;
    let mut deep = NOTHING;
    for instruction in instructions {
        deep = deeper(deep, met(deeps, *instruction, height));
        height = height_after(*instruction, height.min(HIGH));
    }
    deeper(
        deep,
        Deep {
            words: height as u64,
            next: None,
        },
    )
}

fn keep(deeps: &mut [Deep], number: usize, deep: Deep) {
    if let Some(place) = deeps.get_mut(number) {
        *place = deep;
    }
}

/// Of each procedure.
pub(crate) fn deeps_of(alloc: Global, code: &Code) -> Result<Vec<Deep>, AllocError> {
    let mut deeps = vec![in alloc; NOTHING; code.procedures.len()]?;
    for number in &code.order {
        let deep = deep_of(&deeps, code.instructions(Routine::Procedure(*number)));
        keep(&mut deeps, *number, deep);
    }
    Ok(deeps)
}

fn one_if(holds: bool) -> u64 {
    if holds { 1 } else { 0 }
}

fn number_of(registers: Registers) -> u64 {
    one_if(registers.accumulator)
        .saturating_add(one_if(registers.right))
        .saturating_add(one_if(registers.high))
        .saturating_add(one_if(registers.address))
        .saturating_add(one_if(registers.frame))
}

/// A way of calls from main or from an interrupt on: the bytes that it takes, and the interrupt procedure, or what main calls first.
#[derive(Clone, Copy)]
pub(crate) struct Way {
    pub bytes: u64,
    pub first: Option<usize>,
}

/// The deepest way from main on.
pub(crate) fn main_way(code: &Code, deeps: &[Deep]) -> Way {
    let deep = deep_of(deeps, code.instructions(Routine::Main));
    Way {
        bytes: deep.words.saturating_mul(2),
        first: deep.next,
    }
}

/// The deepest way from an interrupt on that the procedure of this number serves, which saves these registers.
fn handler_way(deeps: &[Deep], saved: &[Registers], number: usize) -> Way {
    let registers = match saved.get(number) {
        Some(registers) => number_of(*registers),
        None => 0,
    };
    let below = deep_at(deeps, number).words.saturating_add(registers);
    Way {
        bytes: below.saturating_add(ENTRY).saturating_mul(2),
        first: Some(number),
    }
}

/// The deepest way from each interrupt on that a procedure serves.
pub(crate) fn handler_ways(alloc: Global, code: &Code, deeps: &[Deep]) -> Result<Vec<Way>, Fault> {
    let saved = saved(alloc, code)?;
    let mut ways = Vec::new(alloc);
    for (number, procedure) in code.procedures.iter().enumerate() {
        if procedure.vector.is_some() {
            ways.push(handler_way(deeps, &saved, number))?;
        }
    }
    Ok(ways)
}

/// The way that takes most; that of an interrupt without a procedure where there is none.
pub(crate) fn deepest_way(ways: &[Way]) -> Way {
    let mut deepest = Way {
        bytes: ENTRY.saturating_mul(2),
        first: None,
    };
    for way in ways {
        if way.bytes > deepest.bytes {
            deepest = *way;
        }
    }
    deepest
}
