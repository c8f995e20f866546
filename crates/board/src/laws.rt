//! The laws of the memory, and of schedules: what is read of a text, and its first fault, in the format's own terms.

ghost use Rattle.std.specs.Prelude.{◌≡◌, ℕ, Some, None};
ghost use Rattle.word86.specs.declared.fault.Fault.{Fault};
ghost use Rattle.word86.specs.declared.fault.Fault.TheVariants.{At};
ghost use Rattle.word86.specs.declared.number.Number.{Number};
ghost use Rattle.board.specs.declared.reading.Item.{Item};
ghost use Rattle.board.specs.MemoryLaws.{MemoryLaws};
ghost use Rattle.board.specs.Schedule.{Text, item_of, read_lines, fault_of};
ghost use Rattle.board.specs.Spelling.{Plan, Spells, IsPlan, lines_in};
ghost use Rattle.board.specs.Format.{IsLineOf, HasFault};

/// The laws of the board's memory: an address in RAM or on a page of the screen has after a store what the store left there, each
/// other address has what it had, no store makes RAM or a page longer or shorter, and a word that has both bytes on the screen has
/// them side by side on one page. They rule out a store into the ROM that is kept, a store that changes another byte, a region
/// that a store moves, and a word's label for bytes that are apart.
pub fn memory_laws()
    ensures { MemoryLaws }
{}

/// A text is read without a fault exactly where it spells a schedule, and what is read is that schedule: a FILL line or none,
/// then events whose turns do not fall and stay below the stop, then the STOP line, between them blank lines and comments.
pub fn schedule_law()
    ensures spelled { (text : Text) (p : Plan) → Spells text p → IsPlan (read_lines text) p }
    ensures read { (text : Text) → fault_of (read_lines text) ≡ None → (p : Plan) × Spells text p }
{}

/// An item is read of a line exactly where the line spells it: `FILL hh`, `AT n TICK k`, `AT n KEY hh` or `STOP n`, its words
/// parted by one space, with n below 2 ^ 32 in decimal digits, k from 1 to 65,535, and hh two hexadecimal digits.
pub fn line_law()
    ensures read { (l : Text) (x : Item) → item_of l ≡ Some x → IsLineOf x l }
    ensures spelled { (l : Text) (x : Item) → IsLineOf x l → item_of l ≡ Some x }
{}

/// A text has just the fault that is answered. E701 stands at the first faulty line, if it spells no item, and E702, if its
/// item is out of order: a FILL that is not the first item, an AT whose turn falls, a STOP that is not above each AT, anything
/// after a STOP. E703 stands at the last line (1 if the text is empty) where no line is faulty and none is STOP.
pub fn fault_law()
    ensures answered { (text : Text) (line : ℕ) (number : Number) → HasFault (lines_in text) line number → fault_of (read_lines text) ≡ Some (At 0 line number) }
    ensures has { (text : Text) (f : Fault) → fault_of (read_lines text) ≡ Some f → (line : ℕ) × (number : Number) × (f ≡ At 0 line number) × HasFault (lines_in text) line number }
{}
