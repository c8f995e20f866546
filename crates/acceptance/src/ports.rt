//! A list of calls of the port map. What its chips answer in a run is shown by tests/chips.

use ppi_kbd::{Call, Reply, replay};
use std::process::Abort;
use word86::Event;

/// A key comes while the interrupt controller is in 8086 mode, with vectors from 8 on and an automatic end, and port B an output.
#[test]
fn list_of_calls_of_ports(rt: HostRuntime) {
    let calls = [
        Call::Write(0x63, 0x99),
        Call::WriteWord(0x20, 0x0813),
        Call::Write(0x21, 3),
        Call::Acknowledge,
        Call::Comes(Event::Key(0x1E)),
        Call::Line,
        Call::Acknowledge,
        Call::Read(0x60),
        Call::ReadWord(0x60),
    ];
    let mut replies = [Reply::Nothing; 9];
    replay(&calls, &mut replies);
    let wanted = [
        Reply::Nothing,
        Reply::Nothing,
        Reply::Nothing,
        Reply::Nothing,
        Reply::Nothing,
        Reply::Signal(true),
        Reply::Byte(9),
        Reply::Byte(0x1E),
        Reply::Word(0x001E),
    ];
    assert!(rt; replies == wanted);
}
