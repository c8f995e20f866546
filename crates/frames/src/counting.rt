//! How much of the stack main and an interrupt need.

ghost use Rattle.std.specs.Prelude.{◌≡◌, ℕ, ◌+◌, ◌*◌, ◌^◌, ◌<◌, ◌≤◌, max, map, length, IfOk, IfErr, IfSome, IfNone};
ghost use Rattle.word86.specs.declared.fault.Fault.TheVariants.{Memory};
ghost use Rattle.word86.specs.MemoryMap.{stack_room};
ghost use Rattle.icode.specs.Counted.{one_if, number_of, IsCounted};
ghost use Rattle.frames.specs.Counting.{NoRunPasses, IsRefusal, AreSaved};
ghost use Rattle.frames.specs.Inner.Need.{need_at, room_of, largest_room, AreKnown};

use crate::need::{Need, keep};
use icode::{Code, Registers, Routine};
use std::alloc::Global;
use word86::{Fault, Number, STACK_ROOM};

/// How much of the stack main and an interrupt take at most, in bytes.
#[derive(Clone, Copy)]
pub struct Stack {
    pub main: u16,
    pub handler: u16,
}

// In words: what main and an interrupt may take together.
const ROOM: u128 = (STACK_ROOM / 2) as u128;

// What an interrupt pushes first: the flags and where main goes on.
const ENTRY: u128 = 3;

// What each procedure needs.
fn needs_of(alloc: Global, code: &Code) -> Result<Vec<Need>, Fault>
    ensures known { IfOk result (λ needs. AreKnown code.now needs.items (length code.now.order.items)) }
    ensures size { IfOk result (λ needs. length needs.items ≡ length code.now.procedures.items) }
    ensures few { IfOk result (λ needs. (q : ℕ) → (need_at needs.items q).words + 2 ^ 64 < 2 ^ 128) }
    ensures err { IfErr result (λ f. f ≡ Memory) }
{
    let mut needs = vec![in alloc; Need::nothing(); code.procedures.len()]?;
    for number in &code.order {
        let instructions = code.instructions(Routine::Procedure(*number));
        let need = Need::of(&needs, instructions);
        keep(&mut needs, *number, need);
    }
    Ok(needs)
}

fn one_if(holds: bool) -> u128
    ensures { result ≡ one_if holds }
{
    if holds { 1 } else { 0 }
}

fn number_of(registers: Registers) -> u128
    ensures { result ≡ number_of registers }
{
    one_if(registers.accumulator)
        + one_if(registers.right)
        + one_if(registers.high)
        + one_if(registers.address)
        + one_if(registers.frame)
}

// The words of an interrupt that a procedure serves, if it has a vector.
fn room_of(vector: Option<u8>, need: Need) -> u128
    requires { need.words + 2 ^ 64 < 2 ^ 128 }
    ensures { result ≡ room_of vector need }
{
    match vector {
        None => ENTRY,
        Some(_) => ENTRY + number_of(need.registers) + need.words,
    }
}

// The most words of an interrupt.
fn largest_room(needs: &[Need], code: &Code) -> u128
    requires { (q : ℕ) → (need_at needs.now q).words + 2 ^ 64 < 2 ^ 128 }
    ensures { result ≡ max 3 (largest_room (need_at needs.now) 0 code.now.procedures.items) }
{
    let mut largest = ENTRY;
    for (number, procedure) in code.procedures.iter().enumerate() {
        largest = largest.max(room_of(procedure.vector, Need::at(needs, number)));
    }
    largest
}

// These words as bytes, where both together are at most `ROOM` words.
fn in_bytes(main: u128, handler: u128) -> Option<Stack>
    ensures main { IfSome result (λ s. s.main ≡ 2 * main) }
    ensures handler { IfSome result (λ s. s.handler ≡ 2 * handler) }
    ensures fits { IfSome result (λ s. s.main + s.handler ≤ stack_room) }
    ensures past { IfNone result (stack_room < 2 * main + 2 * handler) }
{
    if ROOM < main || ROOM - main < handler {
        return None;
    }
    Some(Stack {
        main: (2 * main) as u16,
        handler: (2 * handler) as u16,
    })
}

/// Counts how much of the stack a program's code takes at most. Main takes what it and what it calls push; an interrupt the flags and
/// the place where main goes on (6 bytes), the registers that its procedure and what that calls can change (2 bytes each), and what
/// they push; so does one without a procedure.
///
/// # Errors
///
/// E501, at the first line of the first module, where both together are more than the 4,094 bytes of the stack's room; `Memory`.
pub fn count(alloc: Global, code: &Code) -> Result<Stack, Fault>
    ensures counted { IfOk result (λ s. IsCounted code.now s.main s.handler) }
    ensures fits { IfOk result (λ s. s.main + s.handler ≤ stack_room) }
    ensures runs { IfOk result (λ s. NoRunPasses code.now s.main s.handler) }
    ensures refused { IfErr result (λ f. IsRefusal code.now f) }
{
    let needs = needs_of(alloc, code)?;
    let main = Need::words_of(&needs, code.instructions(Routine::Main));
    match in_bytes(main, largest_room(&needs, code)) {
        None => Err(Fault::At(0, 1, Number::E501)),
        Some(stack) => Ok(stack),
    }
}

// The registers of each.
fn registers_of(alloc: Global, needs: &[Need]) -> Result<Vec<Registers>, Fault>
    ensures all { IfOk result (λ registers. registers.items ≡ map (λ n. n.registers) needs.now) }
    ensures err { IfErr result (λ f. f ≡ Memory) }
{
    let mut registers = Vec::new(alloc);
    for need in needs {
        registers.push(need.registers)?;
    }
    Ok(registers)
}

/// The registers that each procedure and what it calls can change: an interrupt procedure saves these.
///
/// # Errors
///
/// `Memory`.
pub fn saved(alloc: Global, code: &Code) -> Result<Vec<Registers>, Fault>
    ensures saved { IfOk result (λ registers. AreSaved code.now registers.items) }
    ensures err { IfErr result (λ f. f ≡ Memory) }
{
    let needs = needs_of(alloc, code)?;
    registers_of(alloc, &needs)
}
