//! Where things lie in memory: what the board, the language and compiled programs agree on, as a linker script says it.
//! `specs/MemoryMap.antt` has the same for contracts.

/// The bytes of RAM, from address 0 on.
pub const RAM_SIZE: usize = 0x2_0000;

/// The bytes of the 256 vectors of interrupts, with which RAM begins.
pub const VECTORS_SIZE: u16 = 1024;

/// The segment of a program's objects and of its stack, in DS and SS.
pub const DATA_SEGMENT: u16 = 0x40;

/// The address of offset 0 of the data segment: 00400H.
pub const DATA_START: u16 = 16 * DATA_SEGMENT;

/// The segment of the screen, in ES.
pub const SCREEN_SEGMENT: u16 = 0xB000;

/// The segment of a program's code, in CS: the ROM lies at its end.
pub const CODE_SEGMENT: u16 = 0xF000;

/// The least offset of an object in the data segment.
pub const FIRST_OFFSET: u16 = 2;

/// The offset in the data segment where objects end and the stack's room begins.
pub const DATA_END: u16 = 0xF000;

/// The bytes that a program's objects may have together: 61,438.
pub const DATA_ROOM: u16 = DATA_END - FIRST_OFFSET;

/// Where the stack pointer begins: the offset behind the stack's room.
pub const STACK_TOP: u16 = 0xFFFE;

/// The bytes of the stack's room: 4,094.
pub const STACK_ROOM: u16 = STACK_TOP - DATA_END;

/// The offset in the code segment of the far jump with which a ROM begins at the reset.
pub const RESET_OFFSET: u16 = 0xFFF0;
