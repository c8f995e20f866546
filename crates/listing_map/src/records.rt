//! A ROM as a file of Intel HEX records, which programmers of EPROMs read.

ghost use Rattle.std.specs.Prelude.{◌≡◌, ◌≤◌, ◌+◌, ◌-◌, ◌/◌, ◌%◌, ◌++◌, [], ◌∷◌, Some, codes, length, take, drop, IfErr};
ghost use Rattle.std.specs.List.{flat_map};
ghost use Rattle.word86.specs.Sink.{Writes};
ghost use Rattle.word86.specs.declared.fault.Fault.TheVariants.{At};
ghost use Rattle.word86.specs.declared.number.Number.TheVariants.{E704};
ghost use Rattle.listing_map.specs.Lines.{hex2};
ghost use Rattle.listing_map.specs.Records.{cells, said, check_of, total, record_front, record_line, data_lines, hex_text};

use crate::lines::CANNOT_WRITE;
use crate::numerals::hex_byte;
use word86::{Fault, Sink, SinkFault, put_all};

/// Bytes at an offset.
const DATA: u8 = 0;

/// No more records.
const END: u8 = 1;

/// The paragraph from which offsets count.
const PARAGRAPH: u8 = 2;

/// Writes a ROM as Intel HEX: records of at most 16 bytes, at its physical addresses, the last of which is 0FFFFFH. Of more than 65,536
/// bytes the addresses do not say where they lie. The one refusal is E704, where the sink failed; what it took is then a beginning of the
/// text. It takes no memory.
pub fn rom_hex<S: Sink>(rom: &[u8], sink: &mut S) -> Result<(), Fault>
    ensures text { Writes (S.taken sink.old) (S.taken sink.new) (S.failures sink.old) (S.failures sink.new) (hex_text rom.now) result }
    ensures says { length rom.now ≤ 65536 → said (hex_text rom.now) ≡ Some (cells (1048576 - length rom.now) rom.now) }
    ensures fault { IfErr result (λ e. e ≡ At 0 1 E704) }
{
    match put_records(sink, rom) {
        Ok(()) => Ok(()),
        Err(_) => Err(CANNOT_WRITE),
    }
}

fn put_records<S: Sink>(sink: &mut S, rom: &[u8]) -> Result<(), SinkFault>
    ensures { Writes (S.taken sink.old) (S.taken sink.new) (S.failures sink.old) (S.failures sink.new) (hex_text rom.now) result }
{
    match put_placed(sink, rom) {
        Ok(()) => put_record(sink, END, 0, &[]),
        Err(fault) => Err(fault),
    }
}

/// Writes the records before the last one.
fn put_placed<S: Sink>(sink: &mut S, rom: &[u8]) -> Result<(), SinkFault>
    ensures { Writes (S.taken sink.old) (S.taken sink.new) (S.failures sink.old) (S.failures sink.new) (record_line 2 0 (240 ∷ 0 ∷ []) ++ data_lines ((length rom.now + 15) / 16) rom.now) result }
{
    match put_record(sink, PARAGRAPH, 0, &[0xF0, 0]) {
        Ok(()) => put_data(sink, rom),
        Err(fault) => Err(fault),
    }
}

/// Writes the records of the ROM's bytes.
fn put_data<S: Sink>(sink: &mut S, rom: &[u8]) -> Result<(), SinkFault>
    ensures { Writes (S.taken sink.old) (S.taken sink.new) (S.failures sink.old) (S.failures sink.new) (data_lines ((length rom.now + 15) / 16) rom.now) result }
{
    let mut rest = rom;
    while !rest.is_empty() {
        let offset = 65_536usize.saturating_sub(rest.len());
        let (bytes, after) = first_bytes(rest);
        match put_record(sink, DATA, offset as u16, bytes) {
            Ok(()) => rest = after,
            Err(fault) => return Err(fault),
        }
    }
    Ok(())
}

/// The first 16 bytes at most, and what follows.
fn first_bytes(bytes: &[u8]) -> (&[u8], &[u8])
    ensures first { result.0.now ≡ take 16 bytes.now }
    ensures rest { result.1.now ≡ drop 16 bytes.now }
{
    if bytes.len() < 16 {
        (bytes, &[])
    } else {
        bytes.split_at(16)
    }
}

/// Writes a record.
fn put_record<S: Sink>(sink: &mut S, kind: u8, offset: u16, bytes: &[u8]) -> Result<(), SinkFault>
    requires { length bytes.now ≤ 255 }
    ensures { Writes (S.taken sink.old) (S.taken sink.new) (S.failures sink.old) (S.failures sink.new) (record_line kind offset bytes.now) result }
{
    let count = bytes.len() as u8;
    let header = [count, (offset / 256) as u8, (offset % 256) as u8, kind];
    match put_front(sink, &header, bytes) {
        Ok(()) => {
            let [high, low] = hex_byte(check(&header, bytes));
            put_all(sink, &[high, low, b'\n'])
        }
        Err(fault) => Err(fault),
    }
}

/// Writes a colon and a record's bytes before the one that checks them.
fn put_front<S: Sink>(sink: &mut S, header: &[u8], bytes: &[u8]) -> Result<(), SinkFault>
    ensures { Writes (S.taken sink.old) (S.taken sink.new) (S.failures sink.old) (S.failures sink.new) (record_front header.now bytes.now) result }
{
    match put_header(sink, header) {
        Ok(()) => put_digits(sink, bytes),
        Err(fault) => Err(fault),
    }
}

fn put_header<S: Sink>(sink: &mut S, header: &[u8]) -> Result<(), SinkFault>
    ensures { Writes (S.taken sink.old) (S.taken sink.new) (S.failures sink.old) (S.failures sink.new) (codes ":" ++ flat_map hex2 header.now) result }
{
    match put_all(sink, b":") {
        Ok(()) => put_digits(sink, header),
        Err(fault) => Err(fault),
    }
}

/// Writes bytes by two digits each.
fn put_digits<S: Sink>(sink: &mut S, bytes: &[u8]) -> Result<(), SinkFault>
    ensures { Writes (S.taken sink.old) (S.taken sink.new) (S.failures sink.old) (S.failures sink.new) (flat_map hex2 bytes.now) result }
{
    for byte in bytes {
        if let Err(fault) = put_all(sink, &hex_byte(*byte)) {
            return Err(fault);
        }
    }
    Ok(())
}

/// The byte that makes the sum of all a multiple of 256.
fn check(header: &[u8], bytes: &[u8]) -> u8
    ensures { result ≡ check_of (total header.now + total bytes.now) }
{
    let sum = low_total(header) + low_total(bytes);
    ((256 - sum % 256) % 256) as u8
}

/// What is left of a sum of bytes by 256.
fn low_total(bytes: &[u8]) -> u32
    ensures value { result ≡ total bytes.now % 256 }
    ensures below { result ≤ 255 }
{
    let mut sum: u32 = 0;
    for byte in bytes {
        sum = (sum + u32::from(*byte)) % 256;
    }
    sum
}
