//! The board at power-on, and its turns.

ghost use Rattle.std.specs.Prelude.{◌≡◌, ◌≤◌, ◌++◌, [], true, false, length, map, IfOk, IfErr, Err};
ghost use Rattle.word86.specs.declared.fault.Fault.TheVariants.{Memory, At};
ghost use Rattle.word86.specs.declared.number.Number.TheVariants.{E705};
ghost use Rattle.word86.specs.Event.{event_label};
ghost use Rattle.cpu8086.specs.declared.cpu.Kind.TheVariants.{Wait};
ghost use Rattle.cpu8086.specs.Cpu.{zeros};
ghost use Rattle.ppi_kbd.specs.Chips.{ChipState, reset};
ghost use Rattle.ppi_kbd.specs.BoardChips.{board_chips};
ghost use Rattle.board.specs.World.{World, board_model, occurs};
ghost use Rattle.board.specs.Machine.{all_occur, power_on as powered_on};
ghost use Rattle.board.specs.Machine.{Board as State, turn, turn_kind};
ghost use Rattle.board.specs.Rom.{is_rom_length};
ghost use Rattle.board.specs.Inner.Settled.{settled_chips};
ghost use Rattle.word86.specs.PowerOn.{pages_of};
ghost use Rattle.board.specs.Board.{Shows};
ghost use Rattle.board.specs.Inner.Attached.{world_of};

use crate::attached::Attached;
use crate::board::Board;
use crate::chips;
use arrayvec::ArrayVec;
use cpu8086::{Cpu, DecodeCache, Kind, RomCode, Turn};
use pit8253::alike_law;
use ppi_kbd::Ports;
use std::alloc::Global;
use word86::{Event, Fault, Label, Number, PowerOn};

/// 8, 16, 32 or 64 KiB.
fn is_rom_length(length: usize) -> bool
    ensures size { result ≡ is_rom_length length }
    ensures fits { result ≡ true → length ≤ 65536 }
{
    length == 8192 || length == 16384 || length == 32768 || length == 65536
}

#[inline(always)]
fn all_occur(attached: &mut Attached, events: &[Event])
    ensures { world_of attached.new ≡ all_occur (board_model settled_chips) (occurs settled_chips) events.now (world_of attached.old) }
{
    for event in events {
        chips::occurs(&mut attached.ports, *event);
    }
}

impl Board {
    /// The board when the power comes on, with this ROM: the processor and the chips are at reset, and the general registers
    /// hold 0. The ROM has 8, 16, 32 or 64 KiB, and E705 is the answer to any other length; else the one refusal is want of
    /// memory.
    pub fn new(alloc: Global, rom: &[u8], power_on: PowerOn) -> Result<Board, Fault>
        ensures refused { is_rom_length (length rom.now) ≡ false → result ≡ Err (At 0 1 E705) }
        ensures taken { is_rom_length (length rom.now) ≡ true → IfErr result (λ e. e ≡ Memory) }
        ensures reset { IfOk result (λ b. Shows b (powered_on zeros rom.now power_on.ram.items (pages_of power_on) reset)) }
        ensures alive { IfOk result (λ b. b.died ≡ None) }
    {
        if !is_rom_length(rom.len()) {
            return Err(Fault::At(0, 1, Number::E705));
        }
        let rom_start = 1_048_576 - rom.len() as u32;
        let code = RomCode::new(alloc, rom)?;
        let rom = rom.to_vec(alloc)?;
        let cache = DecodeCache::new(alloc)?;
        let (ram, colour, monochrome) = power_on.into_parts();
        Ok(Board {
            cpu: Cpu::reset(),
            attached: Attached {
                rom,
                rom_start,
                ram,
                monochrome,
                colour,
                ports: Ports::reset(),
            },
            cache,
            code,
            died: None,
        })
    }

    /// One turn: the due events in their order reach the chips, and then the processor does its turn: an acknowledgement if
    /// one can be taken, else a wait while halted, else one instruction or one repetition of it. It takes no memory.
    ///
    /// The labels of the answer are the processor's; those of the events are the events handed in.
    pub fn turn(&mut self, events: &[Event]) -> Turn
        ensures state { (b : State (World ChipState)) → Shows self.old b → Shows self.new (turn (board_model board_chips) (occurs board_chips) events.now b).0 }
        ensures labels { (b : State (World ChipState)) → Shows self.old b → map event_label events.now ++ result.labels.items ≡ (turn (board_model board_chips) (occurs board_chips) events.now b).1 }
        ensures kind { (b : State (World ChipState)) → Shows self.old b → result.kind ≡ turn_kind (board_model board_chips) (occurs board_chips) events.now b }
    {
        let mut labels = ArrayVec::new();
        let kind = self.turn_leaving_labels(events, &mut labels);
        Turn { labels, kind }
    }

    /// The same turn, with the processor's labels left in `labels`, which is handed in empty.
    #[inline(always)]
    pub(crate) fn turn_leaving_labels(
        &mut self,
        events: &[Event],
        labels: &mut ArrayVec<Label, 4>,
    ) -> Kind
        requires { labels.old.items ≡ [] }
        ensures state { (b : State (World ChipState)) → Shows self.old b → Shows self.new (turn (board_model board_chips) (occurs board_chips) events.now b).0 }
        ensures labels { (b : State (World ChipState)) → Shows self.old b → map event_label events.now ++ labels.new.items ≡ (turn (board_model board_chips) (occurs board_chips) events.now b).1 }
        ensures kind { (b : State (World ChipState)) → Shows self.old b → result ≡ turn_kind (board_model board_chips) (occurs board_chips) events.now b }
        ensures wait { result ≡ Wait → labels.new.items ≡ [] }
        ensures died { self.new.died ≡ self.old.died }
    {
        alike_law();
        let attached = &mut self.attached;
        all_occur(attached, events);
        self.cpu
            .turn_leaving_labels(attached, &mut self.cache, labels)
    }
}
