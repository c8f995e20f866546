//! The board: a schedule of events, the machine that runs any ROM under it, and what is shown of its runs.
#![tactic(auto)]

mod attached;
mod board;
mod bus;
mod character_set;
mod chips;
mod coloured;
mod colours;
mod laws;
mod numbered;
mod picture;
mod place_names;
mod reading;
mod regions;
mod run;
mod schedule;
mod showing;
mod shown;
mod signal_changes;
mod stretch;
mod timetable;
mod trace;
mod turns;
mod watched;
mod words;

pub use board::Board;
pub use coloured::put_coloured_screen;
pub use laws::{fault_law, line_law, memory_laws, schedule_law};
pub use picture::picture_of;
pub use place_names::{PlaceName, read_names};
pub use run::End;
pub use schedule::{Schedule, read_schedule};
pub use showing::{Addresses, address_of, addresses_of, put_dump, put_registers, put_screen};
pub use signal_changes::SignalChanges;
pub use watched::{Watch, WatchedEnd};
