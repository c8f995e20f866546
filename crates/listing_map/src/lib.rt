//! The texts that users see: the lines of a trace and of faults, the listing of a source, and the map of a program; and the forms in which a
//! ROM goes to a programmer of EPROMs; and what is said of a fault beside its line.
#![tactic(auto)]

mod assembler_listing;
mod collected;
mod explaining;
mod halves;
mod lines;
mod linting;
mod messages;
mod noted;
mod numerals;
mod padding;
mod phase_faults;
mod pieces;
mod program_map;
mod records;
mod routines;
mod shown;
mod source_listing;
mod stack_paths;
mod texts;
mod window;

pub use assembler_listing::code_listing;
pub use explaining::{
    Compiled, Control, Explainer, Explanation, UNWRITTEN, controls, explain, explain_run,
};
pub use halves::{RomHalves, rom_halves};
pub use lines::{
    fault_line, put_bad_line, put_behind_turn, put_end_line, put_label, put_opcode_line,
    put_turn_number, trace_line,
};
pub use linting::{Lint, lints};
pub use messages::{NOWHERE, Place, explained_lines, note_line, number_and_words, object_line};
pub use padding::padded_rom;
pub use phase_faults::{FaultAt, TokenAt};
pub use program_map::map;
pub use records::rom_hex;
pub use source_listing::listing;
pub use texts::NamedText;
