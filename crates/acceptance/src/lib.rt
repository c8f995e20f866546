//! The tests, by public calls alone: what becomes of texts, encodings, instructions, ROMs and schedules that others made, and rows from
//! the data sheets worked by hand. They stand in a crate on top, so that each crate below is checked once.
#![tactic(auto)]

#[cfg(test)]
mod codec;
#[cfg(test)]
mod declared_names;
#[cfg(test)]
mod expect;
#[cfg(test)]
mod flags;
#[cfg(test)]
mod in_place;
#[cfg(test)]
mod interrupt_controller;
#[cfg(test)]
mod linking;
#[cfg(test)]
mod literals;
#[cfg(test)]
mod low_bytes;
#[cfg(test)]
mod lowering;
#[cfg(test)]
mod meaning;
#[cfg(test)]
mod nodes;
#[cfg(test)]
mod ports;
#[cfg(test)]
mod processor;
#[cfg(test)]
mod selection;
#[cfg(test)]
mod sources;
#[cfg(test)]
mod timer;
#[cfg(test)]
mod tokens;
#[cfg(test)]
mod typed_trees;
#[cfg(test)]
mod words;
