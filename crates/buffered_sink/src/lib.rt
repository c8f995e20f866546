//! A sink for traces: lines are collected in a buffer, and go to the writer many at a time.
#![tactic(auto)]

mod sink;

pub use sink::BufferedSink;
