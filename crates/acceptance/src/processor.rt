//! The processor on a bus of the test's own, turn by turn: the board's runs are made in another way. What single instructions do is shown by
//! tests/roms and tests/flags.

ghost use Rattle.std.specs.Prelude.{◌≡◌};
ghost use Rattle.acceptance.specs.Inner.TestBus.{TestWorld, test_bus, put, load_after_store_law, ports_law};

use crate::expect::each;
use cpu8086::{Bus, Cpu, Phase, Store};
use i86_table::Register16;
use std::alloc::{AllocError, Global};
use word86::{Label, Width};

/// Memory that keeps all that is stored, a screen at 0B0000H to 0BFFFFH, and at most one request for an interrupt.
#[derive(Drop)]
struct TestBus {
    memory: Vec<u8>,
    request: Option<u8>,
}

impl TestBus {
    /// Memory of zeros.
    fn cleared(alloc: Global) -> Result<TestBus, AllocError> {
        Ok(TestBus {
            memory: vec![in alloc; 0u8; 1_048_576]?,
            request: None,
        })
    }

    fn write(&mut self, start: u32, bytes: &[u8]) {
        let mut address = start;
        for byte in bytes {
            self.set(address, *byte);
            address = address.wrapping_add(1);
        }
    }

    fn set(&mut self, address: u32, value: u8)
        ensures memory { self.new.memory.items ≡ put self.old.memory.items address value }
        ensures request { self.new.request ≡ self.old.request }
    {
        let place = address as usize;
        if place < self.memory.len() {
            self.memory[place] = value;
        }
    }
}

impl Bus for TestBus {
    ghost World = { TestWorld };

    ghost world = { λ b. (b.memory.items, b.request) };

    ghost model = { test_bus };

    fn load(&self, address: u32) -> u8 {
        self.memory.get(address as usize).copied().unwrap_or(255)
    }

    #[tactic(auto, using(crate::proofs::Windows::eight_in_range))]
    fn window(&self, address: u32) -> Option<&[u8]> {
        let start = address as usize;
        if start + 8 <= self.memory.len() {
            Some(&self.memory[start..start + 8])
        } else {
            None
        }
    }

    fn store(&mut self, store: Store) -> Option<Label> {
        match store {
            Store::Byte { address, value } => {
                self.set(address, value);
                if address / 65536 == 11 {
                    Some(Label::Scr((address % 65536) as u16, value))
                } else {
                    None
                }
            }
            Store::Word { low, high, value } => {
                self.set(low, (value % 256) as u8);
                self.set(high, (value / 256) as u8);
                if low / 65536 == 11 {
                    Some(Label::ScrW((low % 65536) as u16, value))
                } else {
                    None
                }
            }
        }
    }

    fn port_in(&mut self, width: Width, port: u16) -> u16 {
        0x5A5A
    }

    fn port_out(&mut self, width: Width, port: u16, value: u16) {}

    fn int_line(&self) -> bool {
        self.request.is_some()
    }

    fn acknowledge(&mut self) -> u8 {
        let vector = self.request.unwrap_or(0);
        self.request = None;
        vector
    }

    ghost load_after_store = { load_after_store_law };

    ghost ports_keep_memory = { ports_law };
}

/// What AX, CX, DX and SP hold where a program at 01000H halts, if it does so within 100 turns.
fn end_of(alloc: Global, code: &[u8]) -> Option<[u16; 4]> {
    let Ok(mut bus) = TestBus::cleared(alloc) else {
        return None;
    };
    bus.write(0x1000, code);
    let mut cpu = Cpu::reset();
    cpu.registers.set_code_segment(0);
    cpu.registers.set_ip(0x1000);
    for _ in 0..100 {
        if cpu.phase == Phase::Halted {
            break;
        }
        cpu.turn(&mut bus);
    }
    (cpu.phase == Phase::Halted).then_some([
        cpu.registers.word(Register16::Ax),
        cpu.registers.word(Register16::Cx),
        cpu.registers.word(Register16::Dx),
        cpu.registers.word(Register16::Sp),
    ])
}

/// Assembled by nasm 2.16 (bits 16): what AX, CX, DX and SP hold at the end. Others are rows of tests/roms.txt.
const PROGRAMS: &[(&[u8], [u16; 4])] = &[
    // mov sp,800h; mov ax,5; push ax; call f; hlt; f: mov bp,sp; mov dx,[bp+2]; ret 2
    (
        &[
            0xBC, 0x00, 0x08, 0xB8, 0x05, 0x00, 0x50, 0xE8, 0x01, 0x00, 0xF4, 0x89, 0xE5, 0x8B,
            0x56, 0x02, 0xC2, 0x02, 0x00,
        ],
        [5, 0, 5, 0x0800],
    ),
    // mov cx,5; xor ax,ax; l: add ax,cx; loop l; hlt
    (
        &[0xB9, 0x05, 0x00, 0x31, 0xC0, 0x01, 0xC8, 0xE2, 0xFC, 0xF4],
        [15, 0, 0, 0],
    ),
    // mov sp,0a00h; mov byte [0a00h],0f4h; call sp
    (
        &[0xBC, 0x00, 0x0A, 0xC6, 0x06, 0x00, 0x0A, 0xF4, 0xFF, 0xD4],
        [0, 0, 0, 0x09FE],
    ),
];

#[test]
fn short_programs(rt: HostRuntime) {
    let alloc = rt.alloc();
    each(
        &rt,
        PROGRAMS,
        |(code, end)| end_of(alloc, code) == Some(*end),
    );
}
