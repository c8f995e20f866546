//! The image of a program: where its objects and its parts lie, and the bytes of its ROM.
#![tactic(auto)]

mod image;
mod initial;
mod linker;
mod objects;
mod places;
mod rom;
mod room;
mod startup;
mod tasks;
mod words;

pub use image::{Image, RomSize};
pub use linker::link;
pub use rom::RESET;
pub use room::{StartUpRoom, start_up_room};
pub use tasks::Task;
