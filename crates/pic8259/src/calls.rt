//! The laws: over every list of calls, and of the sets and their order.

ghost use Rattle.std.specs.Prelude.{◌≡◌, ℕ, ◌<◌, ◌+◌, ◌%◌, List, Bool, true, false, ◌==◌, not, ◌&&◌, ◌||◌, Some, None, length};
ghost use Rattle.pic8259.specs.Levels.{has, with_level, without_level, rank, highest};
ghost use Rattle.pic8259.specs.Priority.{IsHighest, MayInterrupt, IsNext};
ghost use Rattle.pic8259.specs.Controller.{Controller, reset, pending, int_line, vector, acknowledged, taken, first_in_service, ended};
ghost use Rattle.pic8259.specs.Pic.{controller_of};
ghost use Rattle.pic8259.specs.Calls.{after, after_one, reply_of, replies_of};

use crate::pic::Pic;

/// A call of the chip.
#[derive(Clone, Copy)]
pub enum Call {
    /// A word at this level of line A0.
    Write(u8, u8),
    /// A read at this level of line A0.
    Read(u8),
    /// A rise of this request line, 0 to 7; any other number does nothing.
    Pulse(u8),
    /// Whether INT is up.
    Line,
    /// An acknowledgement; it does nothing while INT is down.
    Acknowledge,
}

/// What a call answers.
#[derive(Clone, Copy, PartialEq, Eq)]
pub enum Reply {
    Nothing,
    /// The byte that was read, or the vector.
    Byte(u8),
    /// Whether INT is up.
    Signal(bool),
}

fn make(pic: &mut Pic, call: Call) -> Reply
    ensures state { controller_of pic.new ≡ after_one call (controller_of pic.old) }
    ensures reply { result ≡ reply_of call (controller_of pic.old) }
{
    match call {
        Call::Write(a0, v) => {
            pic.write(a0, v);
            Reply::Nothing
        }
        Call::Read(a0) => Reply::Byte(pic.read(a0)),
        Call::Pulse(level) => {
            pic.pulse(level);
            Reply::Nothing
        }
        Call::Line => Reply::Signal(pic.int_line()),
        Call::Acknowledge => {
            if pic.int_line() {
                Reply::Byte(pic.acknowledge())
            } else {
                Reply::Nothing
            }
        }
    }
}

/// Makes any list of calls on a chip at reset and writes each one's answer into `replies`: they are the definition's, and
/// the chip's state is that to which the definition leads.
pub fn replay(calls: &[Call], replies: &mut [Reply]) -> Pic
    requires { length calls.now ≡ length replies.old }
    ensures answers { replies.new ≡ replies_of calls.now reset }
    ensures state { controller_of result ≡ after calls.now reset }
{
    let mut pic = Pic::reset();
    for (i, call) in calls.iter().enumerate() {
        replies[i] = make(&mut pic, *call);
    }
    pic
}

/// The law of the sets: a set with a level more or less has just that one more or less.
pub fn sets_law()
    ensures more { (s k j : ℕ) → has (with_level k s) j ≡ ((j == k) || has s j) }
    ensures less { (s k j : ℕ) → k < 8 → j < 8 → has (without_level k s) j ≡ (not (j == k) && has s j) }
{}

/// The law of priority: the highest level that passes a test is a level that passes and that none that passes stands above;
/// there is none only where no level passes.
pub fn highest_law()
    ensures some { (lowest : ℕ) (test : ℕ → Bool) (k : ℕ) → lowest < 8 → highest lowest test ≡ Some k → IsHighest lowest test k }
    ensures none { (lowest : ℕ) (test : ℕ → Bool) → lowest < 8 → highest lowest test ≡ None → (k : ℕ) → k < 8 → test k ≡ false }
{}

/// The law of the next level: it is the one level that is requested, unmasked, above every level in service, and the highest
/// such one.
pub fn next_law()
    ensures next { (s : Controller) (k : ℕ) → s.lowest < 8 → pending s ≡ Some k → IsNext s k }
    ensures found { (s : Controller) (k : ℕ) → s.lowest < 8 → IsNext s k → pending s ≡ Some k }
{}

/// The law of INT: it is up exactly where, in 8086 mode, some requested, unmasked level has higher priority than every level in
/// service. An acknowledgement then takes the highest such level, and its vector is that level's.
pub fn line_law()
    ensures up { (s : Controller) (k : ℕ) → s.lowest < 8 → s.mode_8086 ≡ true → MayInterrupt s k → int_line s ≡ true }
    ensures mode { (s : Controller) → int_line s ≡ true → s.mode_8086 ≡ true }
    ensures level { (s : Controller) → s.lowest < 8 → int_line s ≡ true → (k : ℕ) × IsNext s k × (vector s ≡ s.base + k) × (acknowledged s ≡ taken (Some k) s) }
{}

/// The law of rotation: after any calls the lowest level is one; a level made lowest stands last in the order of priority, and the
/// one behind it, 0 after 7, first. The end of the highest level in service with rotation takes that level out of service and
/// makes it lowest; with none in service it does nothing.
pub fn rotation_law()
    ensures level { (calls : List Call) → (after calls reset).lowest < 8 }
    ensures last { (k : ℕ) → k < 8 → rank k k ≡ 7 }
    ensures first { (k : ℕ) → k < 8 → rank k ((k + 1) % 8) ≡ 0 }
    ensures ended { (s : Controller) (k : ℕ) → first_in_service s ≡ Some k → ended 160 s ≡ record s { in_service = without_level k s.in_service; lowest = k } }
    ensures none { (s : Controller) → first_in_service s ≡ None → ended 160 s ≡ s }
{}
