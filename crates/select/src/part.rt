//! Parts of a program: bytes, and the words in them that are known when all parts are placed.

use i86_table::{Condition, Instr, Open};

/// What is added to a word when the parts are placed.
#[derive(Clone, Copy, PartialEq, Eq)]
pub enum Kind {
    /// The offset of an object of the data.
    Offset,
    /// How far it is from the end of the word to where a part begins.
    Near,
    /// Where a part begins.
    Case,
}

/// A word to which something is added when the parts are placed, modulo 65,536.
#[derive(Clone, Copy, PartialEq, Eq)]
pub struct Fixup {
    /// Where the word stands in its part, from 0.
    pub place: usize,
    /// What is added.
    pub kind: Kind,
    /// The number of the object, in order of declaration, or of the part, in the program's order, from 0.
    pub name: usize,
}

/// What leads into a part.
#[derive(Clone, Copy, PartialEq, Eq)]
pub enum Entry {
    /// Start-up: it is main's.
    Main,
    /// The interrupt with this vector.
    Vector(u8),
    /// Every interrupt whose vector has no part of its own.
    Unserved,
    /// Calls alone.
    Call,
}

/// The code of main, of a procedure, or of what serves the vectors without a procedure.
#[derive(Drop)]
pub struct Part {
    /// What leads into it.
    pub entry: Entry,
    /// Its bytes.
    pub bytes: Vec<u8>,
    /// The words in them to which something is added when the parts are placed, each once.
    pub fixups: Vec<Fixup>,
}

/// What a part is made of. Steps are named by their number in the part, objects and parts by theirs in the program.
#[derive(Clone, Copy)]
pub enum Step {
    /// An instruction.
    Plain(Instr),
    /// An instruction with a number in its word, to which something is added.
    Refer {
        instruction: Open,
        number: u16,
        kind: Kind,
        name: usize,
    },
    /// An instruction with the place of a step of this part in its word.
    AtStep {
        instruction: Open,
        target: usize,
    },
    /// A word, the place of a step of this part: one case of a table.
    Word {
        target: usize,
    },
    /// A jump to a step of this part.
    Goto {
        target: usize,
    },
    /// A jump to a step of this part where the condition holds.
    GotoIf {
        condition: Condition,
        target: usize,
    },
}
