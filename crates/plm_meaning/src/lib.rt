//! The runnable meaning of a program: its main, its interrupt procedures, its store and the chips, step by step.
#![tactic(auto)]

mod access;
mod around;
mod context;
mod lookup;
mod meaning;
mod opening;
mod owners;
mod redex;
mod settle;
mod start;
mod store;

pub use meaning::{Choice, Meaning, ObjectStore, Step, Stop};
