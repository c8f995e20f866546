//! What the processor is attached to.

ghost use Rattle.std.specs.Prelude.{◌≡◌, ◌+◌, ◌<◌, ◌≤◌, ◌^◌, ℕ, List, Option, IfSome};
ghost use Rattle.word86.specs.declared.width.Width.{Width};
ghost use Rattle.cpu8086.specs.declared.bus.Store.{Store};
ghost use Rattle.word86.specs.declared.width.Width.TheVariants.{Word};
ghost use Rattle.cpu8086.specs.Machine.{loaded_word, access_at};
ghost use Rattle.cpu8086.specs.BusModel.{BusModel};
ghost use Rattle.cpu8086.specs.BusLaws.{LoadAfterStore, PortsKeepMemory, eight_bytes};

use crate::memory::{next_offset, physical};
use word86::{Label, Width};

/// One access that stores, whole, with its one or two physical addresses.
///
/// The second byte of a word need not be at the next address: it is at the next offset of its segment.
#[derive(Clone, Copy)]
pub enum Store {
    Byte { address: u32, value: u8 },
    Word { low: u32, high: u32, value: u16 },
}

/// Memory, ports and the interrupt line, as the processor sees them.
///
/// Physical addresses are below 1,048,576. What a bus answers and becomes is told by `model` over `World`, its
/// states, and a lawful bus keeps two laws: a load after a store, and that a port access changes no memory.
///
/// Six methods say all: `load`, `store`, `port_in`, `port_out`, `int_line` and `acknowledge`. The others say the same again, for
/// speed alone, and have bodies that serve every bus: `window` lends an instruction's bytes at once, and `load_word` and
/// `store_word` access a word that a bus may find by one test of its address.
pub trait Bus {
    // The states of what is attached.
    ghost World: { Type 0 };

    // The state that this bus is in.
    ghost world: { Self → World };

    // What each access answers and leaves.
    ghost model: { BusModel World };

    /// The byte at a physical address.
    fn load(&self, address: u32) -> u8
        requires { address < 2 ^ 20 }
        ensures { result ≡ model.load (world self.now) address };

    /// Eight bytes in a row, where the bus can lend them from one place: the processor need not load them one by one.
    /// `None` is right for any bus.
    fn window(&self, address: u32) -> Option<&[u8]>
        requires { address + 8 ≤ 2 ^ 20 }
        ensures { IfSome result (λ bytes. bytes.now ≡ eight_bytes model (world self.now) address) }
    {
        None
    }

    /// Stores a byte or a word, and answers the label that shows it, if any.
    fn store(&mut self, store: Store) -> Option<Label>
        ensures label { result ≡ model.store_label (world self.old) store }
        ensures after { world self.new ≡ model.store (world self.old) store };

    /// The word at an offset of a segment. A bus may find it faster than byte by byte.
    #[tactic(auto, unfolding(crate::specs::Machine::loaded_word, crate::specs::Machine::loaded_byte))]
    fn load_word(&self, segment: u16, offset: u16) -> u16
        ensures { result ≡ loaded_word model (world self.now) segment offset }
    {
        let low = self.load(physical(segment, offset));
        let high = self.load(physical(segment, next_offset(offset)));
        u16::from(low) + 256 * u16::from(high)
    }

    /// Stores a word at an offset of a segment, and answers the label that shows it, if any. A bus may do it faster than
    /// any other store.
    fn store_word(&mut self, segment: u16, offset: u16, value: u16) -> Option<Label>
        ensures label { result ≡ model.store_label (world self.old) (access_at Word segment offset value) }
        ensures after { world self.new ≡ model.store (world self.old) (access_at Word segment offset value) }
    {
        self.store(Store::Word {
            low: physical(segment, offset),
            high: physical(segment, next_offset(offset)),
            value,
        })
    }

    /// Reads a port; a word comes from it and the one above it.
    fn port_in(&mut self, width: Width, port: u16) -> u16
        ensures value { result ≡ model.port_value (world self.old) width port }
        ensures after { world self.new ≡ model.port_in (world self.old) width port };

    /// Writes a port; a word goes to it and the one above it.
    fn port_out(&mut self, width: Width, port: u16, value: u16)
        ensures after { world self.new ≡ model.port_out (world self.old) width port value };

    /// Whether an interrupt is requested.
    fn int_line(&self) -> bool
        ensures { result ≡ model.int_line (world self.now) };

    /// Acknowledges the interrupt that is requested, and answers its vector.
    fn acknowledge(&mut self) -> u8
        ensures vector { result ≡ model.vector (world self.old) }
        ensures after { world self.new ≡ model.acknowledge (world self.old) };

    // A byte that was stored is loaded again, where the address keeps what is stored; other bytes stay.
    ghost load_after_store: { LoadAfterStore model };

    // No port access and no acknowledgement changes memory.
    ghost ports_keep_memory: { PortsKeepMemory model };
}
