//! The name that is spelled most like another.

ghost use Rattle.std.specs.Prelude.{◌<◌, ◌≤◌, ◌*◌};

use crate::explaining::sentence::{Part, put_all_parts};
use crate::noted::Noted;
use plm_decl::Builtin;
use plm_token::normal;
use std::alloc::{AllocError, Global};
use std::str::from_utf8;
use strsim::levenshtein;

/// At most so many names are compared with an unknown one.
pub(crate) const MOST: usize = 1_024;

/// At least so many are, however many unknown names there are.
const LEAST: usize = 8;

/// So many comparisons are made for all unknown names, unless the least number for each is more.
const IN_ALL: usize = 100_000;

/// How many names are compared with an unknown one where the sources have so many faults of names: the time of all is bounded.
pub(crate) fn compared_names(faults: usize) -> usize
    ensures least { 8 ≤ result }
    ensures most { result ≤ 1024 }
    ensures in_all { 8 < result → result * faults ≤ 100000 }
{
    (IN_ALL / faults.max(1)).clamp(LEAST, MOST)
}

/// Names with which an unknown one is compared.
#[derive(Drop)]
pub(crate) struct Looked<'a> {
    pub names: Vec<&'a [u8]>,
    /// Whether there are no others.
    pub are_all: bool,
}

/// The built-in that is named after this one. Each is named here, so that none is forgotten.
fn builtin_after(builtin: Builtin) -> Option<Builtin> {
    match builtin {
        Builtin::Length => Some(Builtin::Last),
        Builtin::Last => Some(Builtin::Size),
        Builtin::Size => Some(Builtin::Low),
        Builtin::Low => Some(Builtin::High),
        Builtin::High => Some(Builtin::Double),
        Builtin::Double => Some(Builtin::ShiftLeft),
        Builtin::ShiftLeft => Some(Builtin::ShiftRight),
        Builtin::ShiftRight => Some(Builtin::RotateLeft),
        Builtin::RotateLeft => Some(Builtin::RotateRight),
        Builtin::RotateRight => Some(Builtin::Input),
        Builtin::Input => Some(Builtin::InputWord),
        Builtin::InputWord => Some(Builtin::Output),
        Builtin::Output => Some(Builtin::OutputWord),
        Builtin::OutputWord => Some(Builtin::Signed),
        Builtin::Signed => Some(Builtin::Unsigned),
        Builtin::Unsigned => None,
    }
}

/// Names that the language knows without a declaration.
fn builtin_names(alloc: Global) -> Result<Vec<&'static [u8]>, AllocError> {
    let mut names: Vec<&'static [u8]> = Vec::new(alloc);
    let mut next = Some(Builtin::Length);
    for _step in 0..u8::MAX {
        let Some(builtin) = next else {
            return Ok(names);
        };
        names.push(builtin.spelling())?;
        next = builtin_after(builtin);
    }
    Ok(names)
}

/// The name for which one is wanted that is like it: as it is spelled, in normal form, and its letters.
#[derive(Clone, Copy)]
struct Wanted<'w> {
    spelled: &'w [u8],
    normal: &'w [u8],
    letters: Letters,
}

/// A name, and how many letters have to change to come from it to the one that is wanted.
#[derive(Clone, Copy)]
struct Near<'a> {
    name: &'a [u8],
    distance: usize,
}

/// How many letters have to change to come from one name to the other; none where they are no texts.
fn distance(alloc: Global, one: &[u8], other: &[u8]) -> Result<Option<usize>, AllocError> {
    match (from_utf8(one), from_utf8(other)) {
        (Ok(one), Ok(other)) => Ok(Some(levenshtein(alloc, one, other)?)),
        (Ok(_), Err(_)) | (Err(_), Ok(_)) | (Err(_), Err(_)) => Ok(None),
    }
}

/// Whether a name of which so many letters differ is like the one that is wanted, and nearer than the best one so far: half of the longer
/// one may differ at most.
fn is_nearer(best: Option<Near<'_>>, name: &[u8], distance: usize, wanted: Wanted<'_>) -> bool {
    let are_alike = distance <= name.len().max(wanted.spelled.len()) / 2;
    match best {
        Some(near) => are_alike && distance < near.distance,
        None => are_alike,
    }
}

/// Which letters a name has, each by a bit, and how many. Case and dollar signs do not count.
#[derive(Clone, Copy)]
struct Letters {
    bits: u64,
    count: u32,
}

/// The bit of a letter or a digit; all other characters share one.
fn letter_bit(letter: u8) -> u64 {
    let place = match letter {
        b'A'..=b'Z' => letter - b'A',
        b'a'..=b'z' => letter - b'a',
        b'0'..=b'9' => letter - b'0' + 26,
        _ => 36,
    };
    1u64.wrapping_shl(u32::from(place))
}

fn letters_of(name: &[u8]) -> Letters {
    let mut letters = Letters { bits: 0, count: 0 };
    for letter in name {
        if *letter != b'$' {
            letters.bits |= letter_bit(*letter);
            letters.count = letters.count.saturating_add(1);
        }
    }
    letters
}

/// How many letters differ at least: so many as one name has more, or as one has and the other has not. It is found faster than how many do.
fn least_distance(one: Letters, other: Letters) -> usize {
    let longer = one.count.abs_diff(other.count);
    let strangers = (one.bits & !other.bits).count_ones();
    let others = (other.bits & !one.bits).count_ones();
    longer.max(strangers).max(others) as usize
}

/// The nearer of two.
fn nearer<'a>(
    alloc: Global,
    best: Option<Near<'a>>,
    name: &'a [u8],
    wanted: Wanted<'_>,
) -> Result<Option<Near<'a>>, AllocError> {
    let least = least_distance(wanted.letters, letters_of(name));
    if !is_nearer(best, name, least, wanted) {
        return Ok(best);
    }
    let normal = normal(alloc, name)?;
    match distance(alloc, wanted.normal, &normal)? {
        Some(distance) if is_nearer(best, name, distance, wanted) => {
            Ok(Some(Near { name, distance }))
        }
        Some(_) | None => Ok(best),
    }
}

/// The nearest of a best one so far and these names, of equally near ones the first.
fn nearest_of<'a>(
    alloc: Global,
    first: Option<Near<'a>>,
    names: &[&'a [u8]],
    wanted: &[u8],
) -> Result<Option<Near<'a>>, AllocError> {
    let normal = normal(alloc, wanted)?;
    let wanted = Wanted {
        spelled: wanted,
        normal: &normal,
        letters: letters_of(wanted),
    };
    let mut best = first;
    for name in names {
        best = nearer(alloc, best, name, wanted)?;
    }
    Ok(best)
}

/// Adds that other names were not compared, if there are any: so many were, which are described by these words.
pub(crate) fn put_compared(help: &mut Noted<u8>, looked: &Looked<'_>, words: &'static str) {
    if looked.are_all {
        return;
    }
    let parts = [
        Part::Words("; only the "),
        Part::Number(looked.names.len() as u64),
        Part::Words(words),
        Part::Words(" were compared"),
    ];
    put_all_parts(help, &parts);
}

fn name_of<'a>(near: Option<Near<'a>>) -> Option<&'a [u8]> {
    match near {
        Some(near) => Some(near.name),
        None => None,
    }
}

/// Of these names the first of those that are most like the one that is wanted.
pub(crate) fn nearest_declared<'a>(
    alloc: Global,
    names: &[&'a [u8]],
    wanted: &[u8],
) -> Result<Option<&'a [u8]>, AllocError> {
    Ok(name_of(nearest_of(alloc, None, names, wanted)?))
}

/// The same, or a built-in where it is more like that.
pub(crate) fn nearest<'a>(
    alloc: Global,
    names: &[&'a [u8]],
    wanted: &[u8],
) -> Result<Option<&'a [u8]>, AllocError> {
    let declared = nearest_of(alloc, None, names, wanted)?;
    let builtins = builtin_names(alloc)?;
    Ok(name_of(nearest_of(alloc, declared, &builtins, wanted)?))
}
