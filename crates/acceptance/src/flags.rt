//! What the types of registers, flags and operands answer of themselves; what instructions compute is told by the rows of tests/flags.txt.

use bitflags::Flags as _;
use i86_table::{
    Address, Base, BytePair, Condition, Flags, LoadableSegment, Operands, Port, Register8,
    Register16, Regs, RmOperand, Segment, WordPair, sign_extended, sign_word,
};
use word86::Width;

/// Registers with these flags.
fn with_flags(flags: u16) -> Regs {
    let mut registers = Regs::cleared();
    registers.set_flags(Flags::of_word(flags));
    registers
}

/// Each other public call once; an offset wraps.
#[test]
fn registers(rt: HostRuntime) {
    let mut regs = with_flags(0xFFFF);
    regs.set_code_segment(0xF000);
    regs.set_ip(0x100);
    regs.set_word(Register16::Ax, 0x1234);
    regs.set_byte(Register8::Ah, 0x56);
    regs.set_segment(LoadableSegment::Es, 0xB000);
    regs.set_word(Register16::Dx, 0x3F8);
    regs.set_word(Register16::Bx, 0xFFF0);
    regs.set_word(Register16::Si, 0x20);
    let address = Address::Based {
        base: Base::BxSi,
        displacement: 0xFFFE,
    };
    let found = [
        regs.segment(Segment::Cs),
        regs.ip(),
        regs.word(Register16::Ax),
        u16::from(regs.byte(Register8::Al)),
        regs.segment(LoadableSegment::Es.segment()),
        regs.port(Port::Dx),
        regs.offset(address),
    ];
    assert!(rt; found == [0xF000, 0x100, 0x5634, 0x34, 0xB000, 0x3F8, 0x000E]);
}

#[test]
fn flags_are_set(rt: HostRuntime) {
    let mut regs = with_flags(0xFFFF);
    let all = regs.flags().bits();
    regs.set_flag(Flags::ZERO, false);
    let holds = (
        regs.holds(Condition::Below),
        regs.holds(Condition::Equal),
        regs.lets_interrupts_in(),
    );
    regs.test(Width::Byte, 0x80, 0x80);
    assert!(rt; holds == (true, false, true) && [all, regs.flags().bits()] == [0xFD5, 0x790]);
}

#[test]
fn pairs_and_signs(rt: HostRuntime) {
    let operands: Operands<Register8, u8> = Operands::Immediate(
        RmOperand::Register(Register8::Cl),
        1,
    );
    let words = WordPair::of(Register16::Dx, Register16::Ax);
    let bytes = BytePair::of(Register8::Al, Register8::Bh);
    assert!(rt; [sign_extended(0x80), sign_word(0x7FFF)] == [0xFF80, 0]);
    assert!(rt; matches!(operands.target(), RmOperand::Register(Register8::Cl)));
    assert!(rt; (words.first, words.second) == (Register16::Ax, Register16::Dx));
    assert!(rt; (bytes.first, bytes.second) == (Register8::Al, Register8::Bh));
}
