//! How much a ROM holds, by a part made by hand; linked texts are rows of tests/bytes.txt.

use crate::expect::each;
use crate::sources::{Outcome, names_of, outcome, then};
use frames::Stack;
use layout_link::{Image, RomSize, link};
use plm_decl::Names;
use select::{Entry, Part};
use std::alloc::Global;
use std::process::Abort;
use word86::{Fault, Number};

fn part(alloc: Global, entry: Entry, bytes: Vec<u8>) -> Part {
    Part {
        entry,
        bytes,
        fixups: Vec::new(alloc),
    }
}

/// An image of 8 KiB with so many bytes for main, and the part for vectors without a procedure.
fn linked(alloc: Global, length: usize, names: &Names) -> Result<Image, Fault> {
    let mut parts = Vec::new(alloc);
    parts.push(part(alloc, Entry::Main, vec![in alloc; 0x90u8; length]?))?;
    parts.push(part(alloc, Entry::Unserved, vec![in alloc; 0xCFu8; 1]?))?;
    let stack = Stack {
        main: 0,
        handler: 6,
    };
    link(alloc, parts, names, stack, RomSize::Kib8)
}

/// 8 KiB hold 42 bytes of start-up, 8,133 of a part, 1 of the other and 16 from the reset on, and not one more.
const LENGTHS: &[(usize, Outcome)] = &[(8133, None), (8134, Some((0, 1, Number::E601)))];

#[test]
fn full_exactly(rt: HostRuntime) {
    let alloc = rt.alloc();
    each(&rt, LENGTHS, |(length, wanted)| {
        let names = names_of(alloc, &[b"M: DO; ; END M;"]);
        outcome(then(names, |names| linked(alloc, *length, names))) == *wanted
    });
}
