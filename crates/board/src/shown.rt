//! What a board has when a run has ended: the bytes of the screen and of memory, and the registers.

ghost use Rattle.std.specs.Prelude.{◌≡◌};
ghost use Rattle.word86.specs.Page.{page_of};
ghost use Rattle.ppi_kbd.specs.Chips.{ChipState};
ghost use Rattle.board.specs.World.{World, memory_byte};
ghost use Rattle.board.specs.Machine.{Board as State};
ghost use Rattle.board.specs.Board.{Shows};

use crate::board::Board;
use i86_table::Regs;
use word86::Page;

impl Board {
    /// The bytes of a page of the screen: 80 by 25 places of a character and its attribute.
    pub fn page(&self, page: Page) -> &[u8]
        ensures { (b : State (World ChipState)) → Shows self.now b → result.now ≡ page_of page b.world.screen }
    {
        match page {
            Page::Monochrome => &self.attached.monochrome,
            Page::Colour => &self.attached.colour,
        }
    }

    /// The byte at a physical address; what is nowhere reads 0FFH.
    pub fn byte(&self, address: u32) -> u8
        ensures { (b : State (World ChipState)) → Shows self.now b → result ≡ memory_byte b.world.ram b.world.screen b.world.rom address }
    {
        self.attached.byte(address)
    }

    /// The processor's registers.
    pub fn registers(&self) -> &Regs
        ensures { (b : State (World ChipState)) → Shows self.now b → result.now ≡ b.cpu.registers }
    {
        &self.cpu.registers
    }
}
