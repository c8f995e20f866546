//! The laws over every list of calls.

ghost use Rattle.std.specs.Prelude.{◌≡◌, true, length};
ghost use Rattle.pit8253.specs.Timer.{Timer, timer_reset, timer_pulses};
ghost use Rattle.pit8253.specs.Pit.{Shows};
ghost use Rattle.pit8253.specs.Calls.{after, after_one, reply_of, replies_of, NoCallTells};

use crate::pit::Pit;

/// A call of the chip.
#[derive(Clone, Copy)]
pub enum Call {
    /// A byte is written to this register, 0 to 3.
    Write(u8, u8),
    /// A read of this register, 0 to 3.
    Read(u8),
    /// The gate of channel 2 goes high or low.
    Gate(bool),
    /// This number of pulses on every channel.
    Pulse(u16),
    /// OUT of this channel, 0 to 2.
    Out(u8),
}

/// What a call answers.
#[derive(Clone, Copy, PartialEq, Eq, Debug)]
pub enum Reply {
    Done,
    /// The byte that was read.
    Byte(u8),
    /// Whether OUT is high, or of pulses whether channel 0's rose.
    Signal(bool),
}

fn make(pit: &mut Pit, call: Call) -> Reply
    ensures moved { (c : Timer) → Shows pit.old c → Shows pit.new (after_one call c) }
    ensures reply { (c : Timer) → Shows pit.old c → result ≡ reply_of call c }
{
    match call {
        Call::Write(n, v) => {
            pit.write(n, v);
            Reply::Done
        }
        Call::Read(n) => Reply::Byte(pit.read(n)),
        Call::Gate(gate) => {
            pit.gate(gate);
            Reply::Done
        }
        Call::Pulse(k) => Reply::Signal(pit.pulse(k)),
        Call::Out(n) => Reply::Signal(pit.out(n)),
    }
}

/// Makes any list of calls on a chip at reset and writes each one's answer into `replies`: they are the definition's, and
/// the chip shows the state to which the definition leads.
pub fn replay(calls: &[Call], replies: &mut [Reply]) -> Pit
    requires { length calls.now ≡ length replies.old }
    ensures answers { replies.new ≡ replies_of calls.now timer_reset }
    ensures state { Shows result (after calls.now timer_reset) }
{
    let mut pit = Pit::reset();
    for (i, call) in calls.iter().enumerate() {
        replies[i] = make(&mut pit, *call);
    }
    pit
}

/// The two bodies of `pulse` agree: on chips that show one state, the answers are equal and the chips show one state again.
pub fn pulse_agrees(quick: &mut Pit, plain: &mut Pit, k: u16) -> bool
    ensures equal { (c : Timer) → Shows quick.old c → Shows plain.old c → result ≡ true }
    ensures quick_moved { (c : Timer) → Shows quick.old c → Shows quick.new (timer_pulses k c) }
    ensures plain_moved { (c : Timer) → Shows plain.old c → Shows plain.new (timer_pulses k c) }
{
    quick.pulse(k) == plain.pulse_singly(k)
}

/// The law of alike timers, which differ at most in whole periods gone by: no call tells them apart, now or later. A crate
/// above may so keep one timer for all that are alike.
#[inline(always)]
pub fn alike_law()
    ensures { NoCallTells }
{}
