//! What every crate of Falkhudun speaks of: words of 8 and 16 bits and their arithmetic, faults by number, what a run
//! shows, and the sink that takes its text.
#![tactic(auto)]

mod access;
mod arithmetic;
mod bytes;
mod division_law;
mod event;
mod fault;
mod fault_code;
mod label;
mod memory_map;
mod number;
mod operation;
mod page;
mod place;
mod power_on;
mod signed;
mod sink;
mod width;

pub use access::Access;
pub use arithmetic::{add8, add16, div16, mul16, rol, ror, shl, shr, sub16};
pub use bytes::{is_set, put_word, word_at};
pub use division_law::signed_law;
pub use event::Event;
pub use fault::Fault;
pub use label::Label;
pub use memory_map::{
    CODE_SEGMENT, DATA_END, DATA_ROOM, DATA_SEGMENT, DATA_START, FIRST_OFFSET, RAM_SIZE,
    RESET_OFFSET, SCREEN_SEGMENT, STACK_ROOM, STACK_TOP, VECTORS_SIZE,
};
pub use number::Number;
pub use operation::{BinaryOperation, UnaryOperation};
pub use page::{PAGE_SIZE, Page};
pub use place::Place;
pub use power_on::PowerOn;
pub use signed::{idiv16, signed16, unsigned16};
pub use sink::{CutSink, Sink, SinkFault, WriterSink, put_all};
pub use width::Width;
