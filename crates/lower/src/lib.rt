//! From the trees of a checked program to its intermediate code.
#![tactic(auto)]

mod assignments;
mod callees;
mod cases;
mod conditions;
mod expressions;
mod kind;
mod laws;
mod loops;
mod low_bytes;
mod lowering;
mod put;
mod silence;
mod statements;

pub use laws::{
    checked_code_is_sound, checked_runs_are_allowed, checked_trees_are_well_formed, code_has_room,
    heights_are_low, interrupts_enter_their_procedures, lowering_tracks,
};
pub use lowering::lower;
