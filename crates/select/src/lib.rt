//! The instructions of a program's parts, as bytes with words that are filled in when the parts are placed.
#![tactic(auto)]

mod assembly;
mod counts;
mod drafts;
mod laws;
mod low_bytes;
mod named;
mod operators;
mod part;
mod put;
mod routine;
mod row_places;
mod rows;
mod selection;
mod sizes;

pub use laws::{
    cases_come_soon, instructions_follow_code, parts_have_room, programs_have_room,
    registers_are_counted, unserved_changes_none,
};
pub use part::{Entry, Fixup, Kind, Part, Step};
pub use row_places::RowPlaces;
pub use selection::{select, select_section};
