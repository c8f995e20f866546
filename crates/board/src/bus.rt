//! What the processor sees of the board: loads, stores and ports, and the short ways for bytes and words in RAM.

ghost use Rattle.std.specs.Prelude.{◌≡◌, ◌+◌, ◌%◌, ◌/◌, ◌<◌};
ghost use Rattle.ppi_kbd.specs.Chips.{ChipState};
ghost use Rattle.word86.specs.declared.width.Width.TheVariants.{Word};
ghost use Rattle.word86.specs.declared.page.Page.TheVariants.{Monochrome, Colour};
ghost use Rattle.word86.specs.MemoryMap.{ram_size};
ghost use Rattle.word86.specs.Page.{page_at, page_size};
ghost use Rattle.cpu8086.specs.declared.bus.Store.TheVariants.{Byte};
ghost use Rattle.cpu8086.specs.Machine.{access_at, loaded_word};
ghost use Rattle.board.specs.World.{World, board_model, put, shown_store};
ghost use Rattle.board.specs.Inner.Settled.{chips_of, settled_chips};
ghost use Rattle.board.specs.Inner.Attached.{world_of, beside_ram};
ghost use Rattle.board.specs.Inner.LawfulMemory.{load_after_store_law, ports_law};

use crate::attached::Attached;
use crate::chips::{acknowledge, int_line, read_port, write_port};
use crate::regions::{byte_in, put, put_word, shown_store, word_in_ram, word_on_colour};
use cpu8086::{Bus, Store, physical};
use word86::{Label, Page, RAM_SIZE, Width};

impl Attached {
    /// Stores a byte where RAM or a page holds the address.
    fn put(&mut self, address: u32, value: u8)
        ensures ram { self.new.ram.items ≡ put 0 self.old.ram.items address value }
        ensures monochrome { self.new.monochrome.items ≡ put (page_at Monochrome) self.old.monochrome.items address value }
        ensures colour { self.new.colour.items ≡ put (page_at Colour) self.old.colour.items address value }
        ensures rom { self.new.rom ≡ self.old.rom }
        ensures ports { self.new.ports ≡ self.old.ports }
    {
        put(self.ram.as_mut_slice(), 0, address, value);
        let monochrome = Page::Monochrome.address();
        put(self.monochrome.as_mut_slice(), monochrome, address, value);
        let colour = Page::Colour.address();
        put(self.colour.as_mut_slice(), colour, address, value);
    }

    /// Stores a byte in RAM, as most stores do: the screen is not looked at.
    #[tactic(auto, using(crate::proofs::Stores::below_monochrome, crate::proofs::Stores::below_colour))]
    #[inline(always)]
    fn put_in_ram(&mut self, address: u32, value: u8)
        requires { address < ram_size }
        ensures ram { self.new.ram.items ≡ put 0 self.old.ram.items address value }
        ensures monochrome { self.new.monochrome.items ≡ put (page_at Monochrome) self.old.monochrome.items address value }
        ensures colour { self.new.colour.items ≡ put (page_at Colour) self.old.colour.items address value }
        ensures rom { self.new.rom ≡ self.old.rom }
        ensures ports { self.new.ports ≡ self.old.ports }
    {
        self.ram[address as usize] = value;
    }

    /// Stores a word in RAM, its bytes side by side: where RAM lies is looked up once.
    #[tactic(auto, using(crate::proofs::Stores::word_in_ram, crate::proofs::Stores::word_below_monochrome, crate::proofs::Stores::word_below_colour))]
    #[inline(always)]
    fn put_word_in_ram(&mut self, address: u32, value: u16)
        requires { address + 1 < ram_size }
        ensures ram { self.new.ram.items ≡ put 0 (put 0 self.old.ram.items address (value % 256)) (address + 1) (value / 256) }
        ensures monochrome { self.new.monochrome.items ≡ put (page_at Monochrome) (put (page_at Monochrome) self.old.monochrome.items address (value % 256)) (address + 1) (value / 256) }
        ensures colour { self.new.colour.items ≡ put (page_at Colour) (put (page_at Colour) self.old.colour.items address (value % 256)) (address + 1) (value / 256) }
        ensures rom { self.new.rom ≡ self.old.rom }
        ensures ports { self.new.ports ≡ self.old.ports }
    {
        put_word(self.ram.as_mut_slice(), address as usize, value);
    }

    /// Stores a byte on the colour page: RAM and the other page are not looked at.
    #[tactic(auto, using(crate::proofs::Stores::colour_is_not_ram, crate::proofs::Stores::colour_is_not_monochrome, crate::proofs::Stores::put_on_colour))]
    #[inline(always)]
    fn put_on_colour(&mut self, place: u16, value: u8)
        requires { place < page_size }
        ensures ram { self.new.ram.items ≡ put 0 self.old.ram.items (page_at Colour + place) value }
        ensures monochrome { self.new.monochrome.items ≡ put (page_at Monochrome) self.old.monochrome.items (page_at Colour + place) value }
        ensures colour { self.new.colour.items ≡ put (page_at Colour) self.old.colour.items (page_at Colour + place) value }
        ensures rom { self.new.rom ≡ self.old.rom }
        ensures ports { self.new.ports ≡ self.old.ports }
    {
        self.colour[usize::from(place)] = value;
    }

    /// The byte at an address that is not in RAM.
    #[inline(never)]
    fn load_beside_ram(&self, address: u32) -> u8
        ensures { result ≡ beside_ram (world_of self.now).screen self.now.rom.items address }
    {
        let monochrome = Page::Monochrome.address();
        if let Some(byte) = byte_in(self.monochrome.as_slice(), monochrome, address) {
            return byte;
        }
        let colour = Page::Colour.address();
        if let Some(byte) = byte_in(self.colour.as_slice(), colour, address) {
            return byte;
        }
        if let Some(byte) = byte_in(self.rom.as_slice(), self.rom_start, address) {
            return byte;
        }
        0xFF
    }

    /// The byte at an address, as a load has it.
    pub(crate) fn byte(&self, address: u32) -> u8
        ensures { result ≡ (board_model settled_chips).load (world_of self.now) address }
    {
        match byte_in(self.ram.as_slice(), 0, address) {
            Some(byte) => byte,
            None => self.load_beside_ram(address),
        }
    }

    /// The word at an offset of a segment, byte by byte.
    #[tactic(auto, unfolding(cpu8086::specs::Machine::loaded_word, cpu8086::specs::Machine::loaded_byte))]
    #[cold]
    #[inline(never)]
    fn load_word_anywhere(&self, segment: u16, offset: u16) -> u16
        ensures { result ≡ loaded_word (board_model settled_chips) (world_of self.now) segment offset }
    {
        let low = self.load(physical(segment, offset));
        let high = self.load(physical(segment, offset.wrapping_add(1)));
        u16::from(low) + 256 * u16::from(high)
    }

    /// A store of a word anywhere, and the label that shows it.
    #[inline(never)]
    fn store_word_anywhere(&mut self, segment: u16, offset: u16, value: u16) -> Option<Label>
        ensures label { result ≡ shown_store (access_at Word segment offset value) }
        ensures after { world_of self.new ≡ (board_model settled_chips).store (world_of self.old) (access_at Word segment offset value) }
    {
        self.store_anywhere(Store::Word {
            low: physical(segment, offset),
            high: physical(segment, offset.wrapping_add(1)),
            value,
        })
    }

    /// A store of a word that is not in RAM, and the label that shows it: most of them are on the colour page.
    #[tactic(auto, using(crate::proofs::Stores::seen_word))]
    #[inline(always)]
    fn store_word_beside_ram(&mut self, segment: u16, offset: u16, value: u16) -> Option<Label>
        ensures label { result ≡ shown_store (access_at Word segment offset value) }
        ensures after { world_of self.new ≡ (board_model settled_chips).store (world_of self.old) (access_at Word segment offset value) }
    {
        match word_on_colour(segment, offset) {
            Some(place) => {
                self.put_on_colour(place, (value % 256) as u8);
                self.put_on_colour(place + 1, (value / 256) as u8);
                Some(Label::ScrW(place, value))
            }
            None => self.store_word_anywhere(segment, offset, value),
        }
    }

    /// A store of a byte anywhere, and the label that shows it.
    #[inline(never)]
    fn store_byte_anywhere(&mut self, address: u32, value: u8) -> Option<Label>
        ensures label { result ≡ shown_store (Byte address value) }
        ensures after { world_of self.new ≡ (board_model settled_chips).store (world_of self.old) (Byte address value) }
    {
        self.store_anywhere(Store::Byte { address, value })
    }

    /// A store anywhere, and the label that shows it.
    #[inline(always)]
    fn store_anywhere(&mut self, store: Store) -> Option<Label>
        ensures label { result ≡ shown_store store }
        ensures after { world_of self.new ≡ (board_model settled_chips).store (world_of self.old) store }
    {
        match store {
            Store::Byte { address, value } => self.put(address, value),
            Store::Word { low, high, value } => {
                self.put(low, (value % 256) as u8);
                self.put(high, (value / 256) as u8);
            }
        }
        shown_store(store)
    }
}

impl Bus for Attached {
    ghost World = { World ChipState };

    ghost world = { world_of };

    ghost model = { board_model settled_chips };

    #[inline(always)]
    fn load(&self, address: u32) -> u8 {
        match byte_in(self.ram.as_slice(), 0, address) {
            Some(byte) => byte,
            None => self.load_beside_ram(address),
        }
    }

    fn window(&self, address: u32) -> Option<&[u8]> {
        if self.rom_start <= address {
            let place = (address - self.rom_start) as usize;
            return Some(&self.rom[place..place + 8]);
        }
        let place = address as usize;
        if place + 8 <= self.ram.len() {
            return Some(&self.ram[place..place + 8]);
        }
        None
    }

    #[tactic(auto, using(crate::proofs::Stores::unseen_byte))]
    #[inline(always)]
    fn store(&mut self, store: Store) -> Option<Label> {
        match store {
            Store::Byte { address, value } => {
                if (address as usize) < RAM_SIZE {
                    self.put_in_ram(address, value);
                    None
                } else {
                    self.store_byte_anywhere(address, value)
                }
            }
            Store::Word { low, high, value } => {
                self.store_anywhere(Store::Word { low, high, value })
            }
        }
    }

    #[inline(always)]
    fn load_word(&self, segment: u16, offset: u16) -> u16 {
        match word_in_ram(segment, offset) {
            Some(address) => {
                let place = address as usize;
                u16::from(self.ram[place]) + 256 * u16::from(self.ram[place + 1])
            }
            None => self.load_word_anywhere(segment, offset),
        }
    }

    #[tactic(auto, using(crate::proofs::Stores::unseen_word))]
    #[inline(always)]
    fn store_word(&mut self, segment: u16, offset: u16, value: u16) -> Option<Label> {
        match word_in_ram(segment, offset) {
            Some(address) => {
                self.put_word_in_ram(address, value);
                None
            }
            None => self.store_word_beside_ram(segment, offset, value),
        }
    }

    fn port_in(&mut self, width: Width, port: u16) -> u16 {
        read_port(&mut self.ports, width, port)
    }

    fn port_out(&mut self, width: Width, port: u16, value: u16) {
        write_port(&mut self.ports, width, port, value);
    }

    fn int_line(&self) -> bool {
        int_line(&self.ports)
    }

    fn acknowledge(&mut self) -> u8 {
        acknowledge(&mut self.ports)
    }

    ghost load_after_store = { load_after_store_law settled_chips };

    ghost ports_keep_memory = { ports_law settled_chips };
}
