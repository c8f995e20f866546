//! The chip: three channels, pulsed together.

ghost use Rattle.std.specs.Prelude.{◌≡◌, ℕ, ◌+◌, ◌-◌, ◌/◌, ◌%◌, ◌<◌, ◌≤◌, MatchBool};
ghost use Rattle.pit8253.specs.Timer.{pulses};
ghost use Rattle.pit8253.specs.Alike.{AlikeCounters};
ghost use Rattle.pit8253.specs.Channel.{shown, Rises};

use crate::channel::{Channel, Segments};

/// Counts `k` pulses by arithmetic: the rest of the running period, whole periods, and the last part.
fn advance(channel: &mut Channel, k: u16, segments: &mut Segments) -> bool
    requires { segments.old.made ≤ 4294967292 }
    ensures counted { (segments.old.made ≤ segments.new.made) × (segments.new.made ≤ segments.old.made + 3) }
    ensures tied { channel.new.segments ≡ (channel.old.segments + (segments.new.made - segments.old.made)) % 4294967296 }
    ensures moved { AlikeCounters (shown channel.new) (pulses k (shown channel.old)) }
    ensures rose { MatchBool result (Rises k (shown channel.old)) (¬ Rises k (shown channel.old)) }
{
    let first = channel.within(k);
    let in_first = channel.segment(first, segments);
    if first == k {
        return in_first;
    }
    let rest = k - first;
    let whole = channel.whole(rest);
    let in_whole = channel.segment(whole, segments);
    let in_last = channel.segment(rest - whole, segments);
    in_first | in_whole | in_last
}

/// Counts `k` pulses one by one.
fn advance_singly(channel: &mut Channel, k: u16, segments: &mut Segments) -> bool
    requires { segments.old.made + k < 4294967296 }
    ensures counted { segments.new.made ≡ segments.old.made + k }
    ensures tied { channel.new.segments % 4294967296 ≡ (channel.old.segments + k) % 4294967296 }
    ensures moved { AlikeCounters (shown channel.new) (pulses k (shown channel.old)) }
    ensures rose { MatchBool result (Rises k (shown channel.old)) (¬ Rises k (shown channel.old)) }
{
    let mut rose = false;
    for _i in 0..k {
        rose |= channel.segment(1, segments);
    }
    rose
}

/// The 8253 with its three channels, 0 to 2 (8253 data sheet, "Control Word Format", "Mode Definition" and "Programming Format"
/// for the order of writes; modes 0, 2 and 3, in binary).
///
/// A channel's definition counts its pulses without a bound. So each call is stated for every state of the definition that
/// the chip shows: it shows the definition's next state afterwards, and its answer is the definition's.
#[derive(Drop)]
pub struct Pit {
    zero: Channel,
    one: Channel,
    two: Channel,
}

impl Pit {
    ghost use Rattle.pit8253.specs.Timer.{timer_reset, timer_written, timer_read, timer_answer, timer_out, timer_gated, timer_pulses, on, command, rose, Timer};
    ghost use Rattle.pit8253.specs.Pit.{Shows, timer_shown, segments_of};

    /// The chip at reset: OUT high, no mode, count 0; the gates of channels 0 and 1 are high, that of channel 2 is low.
    pub fn reset() -> Self
        ensures { Shows result timer_reset }
    {
        Pit {
            zero: Channel::reset(true),
            one: Channel::reset(true),
            two: Channel::reset(false),
        }
    }

    /// OUT of channel `n`, 0 to 2; high for other numbers.
    pub fn out(&self, n: u8) -> bool
        ensures { (c : Timer) → Shows self.now c → result ≡ timer_out n c }
    {
        match n {
            0 => self.zero.out(),
            1 => self.one.out(),
            2 => self.two.out(),
            _ => true,
        }
    }

    /// The gate of channel 2 has this level. In modes 2 and 3 a rise begins a new period.
    pub fn gate(&mut self, gate: bool)
        ensures { (c : Timer) → Shows self.old c → Shows self.new (timer_gated gate c) }
    {
        self.two.set_gate(gate);
    }

    /// Reads register `n`: a byte of the held or running count of channels 0 to 2, 0FFH for 3 and above.
    pub fn read(&mut self, n: u8) -> u8
        ensures moved { (c : Timer) → Shows self.old c → Shows self.new (timer_read n c) }
        ensures byte { (c : Timer) → Shows self.old c → result ≡ timer_answer n c }
    {
        match n {
            0 => self.zero.read(),
            1 => self.one.read(),
            2 => self.two.read(),
            _ => 255,
        }
    }

    /// Writes register `n`: a byte of the count of channels 0 to 2, or the control word at 3. Above 3 it does nothing.
    pub fn write(&mut self, n: u8, v: u8)
        ensures { (c : Timer) → Shows self.old c → Shows self.new (timer_written n v c) }
    {
        match n {
            0 => self.zero.write(v),
            1 => self.one.write(v),
            2 => self.two.write(v),
            3 => self.control(v),
            _ => {}
        }
    }

    fn control(&mut self, v: u8)
        ensures { (c : Timer) → Shows self.old c → Shows self.new (on (v / 64) (command v) c) }
    {
        match v / 64 {
            0 => self.zero.command(v),
            1 => self.one.command(v),
            2 => self.two.command(v),
            _ => {}
        }
    }

    /// Counts `k` pulses on every channel. Tells whether channel 0's OUT rose at least once. The channels together count at
    /// most 9 segments, whatever `k`.
    pub fn pulse(&mut self, k: u16) -> bool
        ensures segments { (n : ℕ) × (n ≤ 9) × (segments_of self.new ≡ (segments_of self.old + n) % 4294967296) }
        ensures moved { (c : Timer) → Shows self.old c → Shows self.new (timer_pulses k c) }
        ensures rose { (c : Timer) → Shows self.old c → MatchBool result (Rises k c.zero) (¬ Rises k c.zero) }
        ensures test { (c : Timer) → Shows self.old c → result ≡ rose k c.zero }
    {
        self.pulse_counted(k, &mut Segments::new())
    }

    /// Does what `pulse` does, and adds to the ledger the segments that it made: at most 9 for the three channels together,
    /// whatever `k`. The channels count their segments too, so no segment escapes the ledger.
    pub fn pulse_counted(&mut self, k: u16, segments: &mut Segments) -> bool
        requires { segments.old.made ≤ 4294967286 }
        ensures counted { (segments.old.made ≤ segments.new.made) × (segments.new.made ≤ segments.old.made + 9) }
        ensures tied { segments_of self.new ≡ (segments_of self.old + (segments.new.made - segments.old.made)) % 4294967296 }
        ensures moved { (c : Timer) → Shows self.old c → Shows self.new (timer_pulses k c) }
        ensures rose { (c : Timer) → Shows self.old c → MatchBool result (Rises k c.zero) (¬ Rises k c.zero) }
        ensures test { (c : Timer) → Shows self.old c → result ≡ rose k c.zero }
    {
        let rose = advance(&mut self.zero, k, segments);
        advance(&mut self.one, k, segments);
        advance(&mut self.two, k, segments);
        rose
    }

    /// Does what `pulse` does by `k` single pulses: the plain body, for comparison.
    pub fn pulse_singly(&mut self, k: u16) -> bool
        ensures moved { (c : Timer) → Shows self.old c → Shows self.new (timer_pulses k c) }
        ensures rose { (c : Timer) → Shows self.old c → MatchBool result (Rises k c.zero) (¬ Rises k c.zero) }
        ensures test { (c : Timer) → Shows self.old c → result ≡ rose k c.zero }
    {
        let mut segments = Segments::new();
        let rose = advance_singly(&mut self.zero, k, &mut segments);
        advance_singly(&mut self.one, k, &mut segments);
        advance_singly(&mut self.two, k, &mut segments);
        rose
    }
}
