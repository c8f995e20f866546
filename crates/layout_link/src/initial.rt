//! The bytes that the objects of a program have at start.

ghost use Rattle.std.specs.Prelude.{◌≡◌, ◌+◌, ◌-◌, ◌<◌, ◌≤◌, ◌^◌, ◌++◌, ℕ, List, IfOk, OnOk, IsOkUnless, length, map, slice_get, slice_index};
ghost use Rattle.word86.specs.MemoryMap.{data_end};
ghost use Rattle.i86_code.specs.Coding.{AreBytes};
ghost use Rattle.plm_decl.specs.Initial.{word, variable_address, datum_bytes, initial_bytes};
ghost use Rattle.layout_link.specs.Initial.{Stretch, joined, puts, is_copied, stretch_tasks, copied, copies_with, object_bytes, HaveBytes, stretches, data_tasks, copied_bytes};

use crate::tasks::Task;
use crate::words::number_at;
use plm_decl::{Datum, Names, Object, Region, initial_values_fit};
use std::alloc::Global;
use word86::{DATA_START, Fault};

/// The stretches that are copied at most.
const COPIES: usize = 840;

/// Puts an address, modulo 65,536, low byte first.
fn put_address(bytes: &mut Vec<u8>, address: u128) -> Result<(), Fault>
    ensures bytes { OnOk result (bytes.new.items ≡ bytes.old.items ++ word address) }
    ensures memory { IsOkUnless result Fault.Memory }
{
    bytes.push((address % 0x100) as u8)?;
    bytes.push((address / 0x100 % 0x100) as u8)?;
    Ok(())
}

/// Where a variable lies in the data segment, if the objects lie at these offsets.
fn address_of(names: &Names, offsets: &[u16], variable: usize) -> u128
    ensures address { result ≡ variable_address offsets.now names.now.variables.items (slice_get names.now.variables.items variable) }
    ensures small { result < 2 ^ 65 }
{
    match names.variables.get(variable) {
        None => 0,
        Some(variable) => match variable.region {
            Region::Ram(object, start) => {
                u128::from(number_at(offsets, object)) + u128::from(start)
            }
            Region::Screen(_, _) | Region::Based(_) | Region::Nowhere => 0,
        },
    }
}

/// Puts the bytes of an initial value.
fn put_datum(bytes: &mut Vec<u8>, names: &Names, offsets: &[u16], datum: Datum) -> Result<(), Fault>
    ensures bytes { OnOk result (bytes.new.items ≡ bytes.old.items ++ datum_bytes offsets.now names.now.variables.items datum) }
    ensures memory { IsOkUnless result Fault.Memory }
{
    match datum {
        Datum::Byte(byte) => {
            bytes.push(byte)?;
            Ok(())
        }
        Datum::Word(word) => put_address(bytes, u128::from(word)),
        Datum::Variable(variable, offset) => put_address(
            bytes,
            address_of(names, offsets, variable) + u128::from(offset),
        ),
        Datum::Constants(object) => put_address(bytes, u128::from(number_at(offsets, object))),
    }
}

/// The law that bytes are numbers below 256.
fn are_bytes(bytes: &[u8])
    ensures { AreBytes bytes.now }
{}

/// The initial bytes of an object.
fn first_of(
    alloc: Global,
    names: &Names,
    offsets: &[u16],
    object: &Object,
) -> Result<Vec<u8>, Fault>
    ensures bytes { IfOk result (λ bytes. bytes.items ≡ object_bytes offsets.now names.now.variables.items object.now) }
    ensures small { OnOk result (AreBytes (object_bytes offsets.now names.now.variables.items object.now)) }
    ensures memory { IsOkUnless result Fault.Memory }
{
    let mut bytes = Vec::new(alloc);
    for datum in &object.initial {
        put_datum(&mut bytes, names, offsets, *datum)?;
    }
    are_bytes(&bytes);
    Ok(bytes)
}

/// Puts bytes, one word after another.
fn put(tasks: &mut Vec<Task>, to: u16, bytes: &[u8]) -> Result<(), Fault>
    requires { to + length bytes.now < 65536 }
    ensures tasks { OnOk result (tasks.new.items ≡ tasks.old.items ++ puts to bytes.now) }
    ensures memory { IsOkUnless result Fault.Memory }
{
    let mut to = to;
    let mut rest = bytes;
    while rest.len() >= 2 {
        let word = u16::from(rest[0]) + 256 * u16::from(rest[1]);
        tasks.push(Task::Word { to, word })?;
        to += 2;
        rest = rest.split_at(2).1;
    }
    if !rest.is_empty() {
        tasks.push(Task::Byte { to, byte: rest[0] })?;
    }
    Ok(())
}

/// Whether a stretch with `count` bytes is copied, where `copies` stretches are copied before it.
fn is_copied(copies: usize, count: usize) -> bool
    ensures { result ≡ is_copied copies count }
{
    copies < COPIES && count >= 5
}

/// One more stretch, with these bytes there. The answer is how many stretches are copied with it.
fn add(
    tasks: &mut Vec<Task>,
    bytes: &mut Vec<u8>,
    copies: usize,
    to: u16,
    first: &[u8],
) -> Result<usize, Fault>
    requires { to + length first.now < 65536 }
    ensures tasks { OnOk result (tasks.new.items ≡ tasks.old.items ++ stretch_tasks (length bytes.old.items) copies to first.now) }
    ensures bytes { OnOk result (bytes.new.items ≡ bytes.old.items ++ copied copies first.now) }
    ensures copies { IfOk result (λ n. n ≡ copies_with copies first.now) }
    ensures memory { IsOkUnless result Fault.Memory }
{
    if !is_copied(copies, first.len()) {
        put(tasks, to, first)?;
        return Ok(copies);
    }
    tasks.push(Task::Copy {
        at: bytes.len(),
        to,
        more: (first.len() - 1) as u16,
    })?;
    bytes.extend_from_slice(first)?;
    Ok(copies + 1)
}

/// A stretch that may go on: bytes one after another, from this address on.
#[derive(Drop)]
struct OpenStretch {
    to: u16,
    bytes: Vec<u8>,
}

/// The initial bytes of one more object, which lie there: the stretch goes on with them where it ends there; else it is added, and they
/// begin another one. The answer is how many stretches are copied.
fn go_on(
    tasks: &mut Vec<Task>,
    bytes: &mut Vec<u8>,
    copies: usize,
    stretch: &mut OpenStretch,
    to: u16,
    first: &[u8],
) -> Result<usize, Fault>
    requires stretch { stretch.old.to + length stretch.old.bytes.items < 65536 }
    requires first { to + length first.now < 65536 }
    ensures tasks { IfOk result (λ n. (rest : List Stretch) → tasks.old.items ++ data_tasks (length bytes.old.items) copies (joined stretch.old.to stretch.old.bytes.items (joined to first.now rest)) ≡ tasks.new.items ++ data_tasks (length bytes.new.items) n (joined stretch.new.to stretch.new.bytes.items rest)) }
    ensures bytes { IfOk result (λ n. (rest : List Stretch) → bytes.old.items ++ copied_bytes copies (joined stretch.old.to stretch.old.bytes.items (joined to first.now rest)) ≡ bytes.new.items ++ copied_bytes n (joined stretch.new.to stretch.new.bytes.items rest)) }
    ensures within { OnOk result (stretch.new.to + length stretch.new.bytes.items < 65536) }
    ensures memory { IsOkUnless result Fault.Memory }
{
    if usize::from(to) == usize::from(stretch.to) + stretch.bytes.len() {
        stretch.bytes.extend_from_slice(first)?;
        return Ok(copies);
    }
    let copies = add(tasks, bytes, copies, stretch.to, &stretch.bytes)?;
    stretch.to = to;
    stretch.bytes.clear();
    stretch.bytes.extend_from_slice(first)?;
    Ok(copies)
}

/// Adds what start-up does for the objects, which lie at these offsets; the answer is the bytes that it copies, one after another.
pub(crate) fn initial(
    alloc: Global,
    names: &Names,
    offsets: &[u16],
    tasks: &mut Vec<Task>,
) -> Result<Vec<u8>, Fault>
    requires { (k : ℕ) → slice_index offsets.now k + slice_index (map (λ o. o.size) names.now.objects.items) k ≤ data_end }
    ensures tasks { OnOk result (tasks.new.items ≡ tasks.old.items ++ data_tasks 0 0 (stretches offsets.now names.now.variables.items 0 names.now.objects.items)) }
    ensures bytes { IfOk result (λ bytes. bytes.items ≡ copied_bytes 0 (stretches offsets.now names.now.variables.items 0 names.now.objects.items)) }
    ensures small { OnOk result (HaveBytes offsets.now names.now.variables.items names.now.objects.items) }
    ensures memory { IsOkUnless result Fault.Memory }
{
    initial_values_fit();
    let mut bytes = Vec::new(alloc);
    let mut copies = 0;
    let mut stretch = OpenStretch {
        to: DATA_START,
        bytes: Vec::new(alloc),
    };
    for (k, object) in names.objects.iter().enumerate() {
        let first = first_of(alloc, names, offsets, object)?;
        let to = DATA_START + number_at(offsets, k);
        copies = go_on(tasks, &mut bytes, copies, &mut stretch, to, &first)?;
    }
    add(tasks, &mut bytes, copies, stretch.to, &stretch.bytes)?;
    Ok(bytes)
}
