//! The registers of the 8086.

ghost use Rattle.std.specs.Prelude.{◌≡◌, ◌<◌, ◌+◌, ◌*◌, ◌/◌, ◌%◌};
ghost use Rattle.i86_table.specs.Numbers.{byte_register_code, word_register_code, segment_code};
ghost use Rattle.i86_table.specs.State.{word_of, with_word, byte_of, with_byte, segment_of, with_segment, loadable, whole, cleared, with_code_segment, with_ip, with_flags};
ghost use Rattle.i86_table.specs.Inner.RegisterFile.{is_low};

use crate::flags::Flags;
use crate::late_flags::LateFlags;
use bitflags::Flags as _;
use std::marker::Model;

/// A word register, in the order of its number in an encoding.
#[derive(Clone, Copy, PartialEq, Eq)]
pub enum Register16 {
    Ax,
    Cx,
    Dx,
    Bx,
    Sp,
    Bp,
    Si,
    Di,
}

/// A byte register, in the order of its number in an encoding.
#[derive(Clone, Copy, PartialEq, Eq)]
pub enum Register8 {
    Al,
    Cl,
    Dl,
    Bl,
    Ah,
    Ch,
    Dh,
    Bh,
}

/// A segment register, in the order of its number in an encoding.
#[derive(Clone, Copy)]
pub enum Segment {
    Es,
    Cs,
    Ss,
    Ds,
}

/// A segment register that MOV and POP may load: CS is loaded by jumps alone.
#[derive(Clone, Copy)]
pub enum LoadableSegment {
    Es,
    Ss,
    Ds,
}

/// All registers of the processor: contracts see them by their names.
///
/// The word registers stand in the order of their numbers, so that an instruction finds its own by one load.
#[derive(Drop)]
pub struct Regs {
    words: [u16; 8],
    segments: [u16; 4],
    ip: u16,
    pub(crate) status: LateFlags,
}

impl Model for Regs {
    ghost use Rattle.i86_table.specs.Registers.{Registers};

    ghost Value = { Registers };

    ghost use Rattle.i86_table.specs.Inner.RegisterFile.{named, IsWhole};

    ghost view = { named };

    ghost invariant = { IsWhole };
}

impl Register16 {
    /// Its number in an encoding, AX being 0 and DI 7.
    #[inline(always)]
    pub fn number(self) -> u8
        ensures value { result ≡ word_register_code self }
        ensures fits { result < 8 }
    {
        self as u8
    }
}

impl Register8 {
    /// Its number in an encoding, AL being 0 and BH 7.
    pub fn number(self) -> u8
        ensures value { result ≡ byte_register_code self }
        ensures fits { result < 8 }
    {
        self as u8
    }
}

impl Register8 {
    /// The word register that it lies in.
    #[inline(always)]
    pub(crate) fn whole(self) -> Register16
        ensures { result ≡ whole self }
    {
        match self {
            Register8::Al | Register8::Ah => Register16::Ax,
            Register8::Cl | Register8::Ch => Register16::Cx,
            Register8::Dl | Register8::Dh => Register16::Dx,
            Register8::Bl | Register8::Bh => Register16::Bx,
        }
    }

    /// Whether it is the low half.
    #[inline(always)]
    fn is_low(self) -> bool
        ensures { result ≡ is_low self }
    {
        match self {
            Register8::Al | Register8::Cl | Register8::Dl | Register8::Bl => true,
            Register8::Ah | Register8::Ch | Register8::Dh | Register8::Bh => false,
        }
    }
}

impl Segment {
    /// Its number in an encoding, ES being 0 and DS 3.
    #[inline(always)]
    fn number(self) -> u8
        ensures value { result ≡ segment_code self }
        ensures fits { result < 4 }
    {
        self as u8
    }
}

impl LoadableSegment {
    /// The segment register that it is.
    pub fn segment(self) -> Segment
        ensures { result ≡ loadable self }
    {
        match self {
            LoadableSegment::Es => Segment::Es,
            LoadableSegment::Ss => Segment::Ss,
            LoadableSegment::Ds => Segment::Ds,
        }
    }
}

fn with_low(word: u16, byte: u8) -> u16
    ensures { result ≡ word / 256 * 256 + byte }
{
    word / 256 * 256 + u16::from(byte)
}

fn with_high(word: u16, byte: u8) -> u16
    ensures { result ≡ byte * 256 + word % 256 }
{
    u16::from(byte) * 256 + word % 256
}

impl Regs {
    /// All registers 0, and no flag set.
    pub fn cleared() -> Regs
        ensures { result ≡ cleared }
    {
        Regs {
            words: [0; 8],
            segments: [0; 4],
            ip: 0,
            status: LateFlags::of(Flags::from_bits_retain(0)),
        }
    }

    /// What a word register holds.
    #[inline(always)]
    pub fn word(&self, register: Register16) -> u16
        ensures { result ≡ word_of self.now register }
    {
        self.words[usize::from(register.number())]
    }

    /// Puts a value into a word register.
    #[inline(always)]
    pub fn set_word(&mut self, register: Register16, value: u16)
        ensures { self.new ≡ with_word self.old register value }
    {
        let place = usize::from(register.number());
        self.words[place] = value;
    }

    /// What a byte register holds: the low or the high half of its word register.
    #[inline(always)]
    pub fn byte(&self, register: Register8) -> u8
        ensures { result ≡ byte_of self.now register }
    {
        let word = self.word(register.whole());
        if register.is_low() {
            (word % 256) as u8
        } else {
            (word / 256) as u8
        }
    }

    /// Puts a value into a byte register; the other half of its word register stays.
    #[inline(always)]
    pub fn set_byte(&mut self, register: Register8, value: u8)
        ensures { self.new ≡ with_byte self.old register value }
    {
        let whole = register.whole();
        let word = self.word(whole);
        let word = if register.is_low() {
            with_low(word, value)
        } else {
            with_high(word, value)
        };
        self.set_word(whole, word);
    }

    /// What a segment register holds.
    #[inline(always)]
    pub fn segment(&self, segment: Segment) -> u16
        ensures { result ≡ segment_of self.now segment }
    {
        self.segments[usize::from(segment.number())]
    }

    /// Puts a value into a segment register.
    pub fn set_segment(&mut self, segment: LoadableSegment, value: u16)
        ensures { self.new ≡ with_segment self.old segment value }
    {
        self.segments[usize::from(segment.segment().number())] = value;
    }

    /// Puts a value into CS, as jumps to another segment and interrupts do.
    pub fn set_code_segment(&mut self, value: u16)
        ensures { self.new ≡ with_code_segment value self.old }
    {
        self.segments[1] = value;
    }

    /// The instruction pointer.
    #[inline(always)]
    pub fn ip(&self) -> u16
        ensures { result ≡ self.now.ip }
    {
        self.ip
    }

    /// Puts a value into the instruction pointer.
    #[inline(always)]
    pub fn set_ip(&mut self, value: u16)
        ensures { self.new ≡ with_ip value self.old }
    {
        self.ip = value;
    }

    /// The flags.
    pub fn flags(&self) -> Flags
        ensures { result ≡ self.now.flags }
    {
        self.status.flags()
    }

    /// Puts other flags in place of these.
    pub fn set_flags(&mut self, flags: Flags)
        ensures { self.new ≡ with_flags flags self.old }
    {
        self.status = LateFlags::of(flags);
    }
}
