//! Two ways to count pulses, which make the same; what the 8253 answers is told by rows of tests/chips.txt.

use crate::expect::each;
use pit8253::{Call, Pit, Reply, Segments, pulse_agrees, replay};
use std::process::Abort;

/// A chip at reset after these writes.
fn set(writes: &[(u8, u8)]) -> Pit {
    let mut pit = Pit::reset();
    for (n, v) in writes {
        pit.write(*n, *v);
    }
    pit
}

// Nine segments are enough, and these three channels need them.
#[test]
fn segments_of_a_long_run(rt: HostRuntime) {
    let mut pit = set(&[(3, 0x14), (0, 7), (3, 0x54), (1, 9), (3, 0x94), (2, 3)]);
    pit.gate(true);
    pit.pulse(5);
    let mut segments = Segments::new();
    assert!(rt; pit.pulse_counted(60000, &mut segments) && segments.made() == 9);
}

/// Whether pulses by arithmetic and one by one make the same of a count, so many pulses, another count and more pulses: the same rises,
/// OUT and counts.
fn agree(word: u8, count: u8, before: u16, after: u16) -> bool {
    let mut quick = set(&[(3, word), (0, count)]);
    let mut plain = set(&[(3, word), (0, count)]);
    quick.pulse(before);
    plain.pulse_singly(before);
    quick.write(0, 3);
    plain.write(0, 3);
    quick.pulse(after) == plain.pulse_singly(after)
        && quick.out(0) == plain.out(0)
        && quick.read(0) == plain.read(0)
}

/// Whether they do for each of these counts and numbers of pulses.
fn always_agree(word: u8) -> bool {
    for count in 0..=9u8 {
        for before in 0..12u16 {
            for after in 0..40u16 {
                if !agree(word, count, before, after) {
                    return false;
                }
            }
        }
    }
    true
}

#[test]
fn both_bodies(rt: HostRuntime) {
    each(&rt, &[0x10u8, 0x14, 0x16], |word| always_agree(*word));
}

#[test]
fn both_bodies_agree(rt: HostRuntime) {
    let mut quick = set(&[(3, 0x16), (0, 5)]);
    let mut plain = set(&[(3, 0x16), (0, 5)]);
    assert!(rt; pulse_agrees(&mut quick, &mut plain, 4000));
}

#[test]
fn list_of_calls(rt: HostRuntime) {
    let calls = [
        Call::Write(3, 0x14),
        Call::Write(0, 4),
        Call::Pulse(4),
        Call::Out(0),
        Call::Pulse(1),
        Call::Gate(true),
        Call::Read(0),
    ];
    let mut replies = [Reply::Done; 7];
    replay(&calls, &mut replies);
    let want = [
        Reply::Done,
        Reply::Done,
        Reply::Signal(false),
        Reply::Signal(false),
        Reply::Signal(true),
        Reply::Done,
        Reply::Byte(4),
    ];
    assert_eq!(rt; replies, want);
}
