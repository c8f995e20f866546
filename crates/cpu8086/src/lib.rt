//! The processor: one turn of it over any bus.
#![tactic(auto)]

mod arithmetic;
mod bus;
mod cache;
mod control;
mod cpu;
mod entry;
mod execute;
mod memory;
mod moves;
mod operand;
mod rom_code;
mod step;
mod strings;

pub use bus::{Bus, Store};
pub use cache::DecodeCache;
pub use cpu::{Cpu, Kind, Phase, Turn};
pub use memory::physical;
pub use rom_code::RomCode;
