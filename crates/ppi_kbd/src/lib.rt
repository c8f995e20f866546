//! The port map of the board: interrupt controller, timer, peripheral interface and keyboard, all on one set of ports.
//!
//! Channel 0's OUT of the timer is request level 0, whatever raises it: a pulse, a control word or a count. The keyboard is
//! level 1; the other levels never rise. No call takes memory or refuses.
#![tactic(auto)]

mod calls;
mod device;
mod keyboard;
mod ports;
mod ppi;

pub use calls::{Call, Reply, bounds_law, replay};
pub use ports::Ports;
