//! Which chip a port belongs to.

ghost use Rattle.std.specs.Prelude.{◌≡◌};
ghost use Rattle.ppi_kbd.specs.Device.{device_of};

/// The chip that a port belongs to, with the number of its register (IBM PC Technical Reference, "I/O Address Map").
#[derive(Clone, Copy)]
pub enum Device {
    /// The 8259A, at 20H and 21H.
    Interrupts(u8),
    /// The 8253, at 40H to 43H.
    Timer(u8),
    /// The 8255A, at 60H to 63H.
    Interface(u8),
    Unmapped,
}

/// The device at a port.
pub fn device_at(port: u16) -> Device
    ensures { result ≡ device_of port }
{
    if port / 2 == 16 {
        Device::Interrupts((port % 2) as u8)
    } else if port / 4 == 16 {
        Device::Timer((port % 4) as u8)
    } else if port / 4 == 24 {
        Device::Interface((port % 4) as u8)
    } else {
        Device::Unmapped
    }
}
