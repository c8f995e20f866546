//! The bytes of the instructions of the 8086.
#![tactic(auto)]

mod choosing;
mod coding;
mod form;
mod instructions;
mod numbers;
mod opcode;
mod open;
mod ranges;
mod reading;
mod writing;

pub use coding::{decode, decoded_spells, decoded_widths, encode, one_form, round_trip};
pub use form::{FieldKind, Fields, Form, Opcode, Prefixes, RegisterOrMemory};
pub use numbers::Numbered;
pub use open::{bytes_behind, encode_open};
pub use ranges::instruction_fits;
