//! The instructions of start-up.

ghost use Rattle.std.specs.Prelude.{◌≡◌, ◌++◌, IfOk, OnOk, IsOkUnless};
ghost use Rattle.i86_table.specs.declared.instruction.Address.TheVariants as addresses;
ghost use Rattle.i86_table.specs.declared.instruction.Base.TheVariants as bases;
ghost use Rattle.layout_link.specs.Startup.{in_data, load_word, put_word, put_byte, rep_movsb};
ghost use Rattle.layout_link.specs.Tasks.{placed};
ghost use Rattle.layout_link.specs.Inner.Head.{to_entry, instructions_of, to_main, start_up};

use crate::tasks::Task;
use crate::words::number_at;
use i86_table::{
    Address, AluOperation, Base, Condition, Instr, LoadableSegment, Memory, Operands, Register16,
    Repeat, RmOperand, Segment,
};
use std::alloc::Global;
use word86::{CODE_SEGMENT, DATA_SEGMENT, Fault, SCREEN_SEGMENT, STACK_TOP, VECTORS_SIZE, Width};

/// The bytes of start-up without its tasks.
pub(crate) const START_UP: usize = 42;

/// MOV register,value.
fn load(register: Register16, value: u16) -> Instr
    ensures { result ≡ load_word register value }
{
    Instr::MoveWord(Operands::Immediate(RmOperand::Register(register), value))
}

/// An operand in the data segment.
fn in_data(address: Address) -> Memory
    ensures { result ≡ in_data address }
{
    Memory {
        segment: Segment::Ds,
        address,
    }
}

/// An operand at BX and a displacement.
fn at_bx(displacement: u16) -> Memory
    ensures { result ≡ in_data (addresses.Based bases.Bx displacement) }
{
    in_data(Address::Based {
        base: Base::Bx,
        displacement,
    })
}

/// A word is put at an address.
fn put_word(to: u16, word: u16) -> Instr
    ensures { result ≡ put_word to word }
{
    let place = RmOperand::Memory(in_data(Address::Direct(to)));
    Instr::MoveWord(Operands::Immediate(place, word))
}

/// A byte is put at an address.
fn put_byte(to: u16, byte: u8) -> Instr
    ensures { result ≡ put_byte to byte }
{
    let place = RmOperand::Memory(in_data(Address::Direct(to)));
    Instr::MoveByte(Operands::Immediate(place, byte))
}

/// REP MOVSB from the code's segment.
fn rep_movsb() -> Instr
    ensures { result ≡ rep_movsb }
{
    Instr::MoveString {
        width: Width::Byte,
        source: Segment::Cs,
        repeat: Repeat::WhileCx,
    }
}

/// Leads every vector to this entry, by a loop over BX.
fn to_entry(entry: u16) -> [Instr; 9]
    ensures { result ≡ to_entry entry }
{
    let bx = RmOperand::Register(Register16::Bx);
    [
        load(Register16::Ax, entry),
        load(Register16::Dx, CODE_SEGMENT),
        load(Register16::Bx, 0),
        Instr::MoveWord(Operands::FromRegister(RmOperand::Memory(at_bx(0)), Register16::Ax)),
        Instr::MoveWord(Operands::FromRegister(RmOperand::Memory(at_bx(2)), Register16::Dx)),
        Instr::AluWord(AluOperation::Add, Operands::Immediate(bx, 4)),
        Instr::AluWord(AluOperation::Cmp, Operands::Immediate(bx, VECTORS_SIZE)),
        Instr::JumpIf(Condition::NotEqual, 242),
        Instr::ClearDirection,
    ]
}

/// Loads the segments and the stack pointer, and jumps this distance.
fn to_main(distance: u16) -> [Instr; 7]
    ensures { result ≡ to_main distance }
{
    let ax = RmOperand::Register(Register16::Ax);
    [
        load(Register16::Ax, DATA_SEGMENT),
        Instr::MoveToSegment(LoadableSegment::Ds, ax),
        Instr::MoveToSegment(LoadableSegment::Ss, ax),
        load(Register16::Ax, SCREEN_SEGMENT),
        Instr::MoveToSegment(LoadableSegment::Es, ax),
        load(Register16::Sp, STACK_TOP),
        Instr::Jump(distance),
    ]
}

/// One byte and `more` after it are copied.
fn copy(head: &mut Vec<Instr>, from: u16, to: u16, more: u16) -> Result<(), Fault>
    ensures items { OnOk result (head.new.items ≡ head.old.items ++ instructions_of (Rattle.layout_link.specs.Startup.Copy from to more)) }
    ensures memory { IsOkUnless result Fault.Memory }
{
    let copying = [
        load(Register16::Si, from),
        load(Register16::Di, to),
        load(Register16::Cx, more.wrapping_add(1)),
        rep_movsb(),
    ];
    Ok(head.extend_from_slice(&copying)?)
}

/// One more task. The parts begin at these places, and the initial bytes lie from this place on.
fn perform(head: &mut Vec<Instr>, task: Task, places: &[u16], from: u16) -> Result<(), Fault>
    ensures items { OnOk result (head.new.items ≡ head.old.items ++ instructions_of (placed places.now from task)) }
    ensures memory { IsOkUnless result Fault.Memory }
{
    match task {
        Task::Vector { vector, part } => {
            head.push(put_word(4 * u16::from(vector), number_at(places, part)))?;
            Ok(())
        }
        Task::Word { to, word } => {
            head.push(put_word(to, word))?;
            Ok(())
        }
        Task::Byte { to, byte } => {
            head.push(put_byte(to, byte))?;
            Ok(())
        }
        Task::Copy { at, to, more } => {
            copy(head, from.wrapping_add((at % 65536) as u16), to, more)
        }
    }
}

/// Start-up: every vector leads to this entry; then come the tasks; then the segments and the stack pointer are loaded, and it
/// jumps to main.
pub(crate) fn start_up(
    alloc: Global,
    entry: u16,
    tasks: &[Task],
    places: &[u16],
    from: u16,
    distance: u16,
) -> Result<Vec<Instr>, Fault>
    ensures items { IfOk result (λ head. head.items ≡ start_up entry places.now from tasks.now distance) }
    ensures memory { IsOkUnless result Fault.Memory }
{
    let mut head = Vec::from_slice(alloc, &to_entry(entry))?;
    for task in tasks {
        perform(&mut head, *task, places, from)?;
    }
    head.extend_from_slice(&to_main(distance))?;
    Ok(head)
}
