//! What start-up has to do for a program.

ghost use Rattle.std.specs.Prelude.{◌≡◌, ◌++◌, IfOk, OnOk, IsOkUnless};
ghost use Rattle.layout_link.specs.Tasks.{bytes_of_task, is_main, is_unserved, is_serving, serving, vector_task, vector_tasks};

use select::{Entry, Part};
use std::alloc::Global;
use word86::Fault;

/// A task of start-up, but for where the parts and the initial bytes lie. Addresses count from 0.
#[derive(Clone, Copy)]
pub enum Task {
    /// The vector leads to the part of this number.
    Vector { vector: u8, part: usize },
    /// A word is put there.
    Word { to: u16, word: u16 },
    /// A byte is put there.
    Byte { to: u16, byte: u8 },
    /// One byte and `more` after it are copied there, from the initial byte with the index `at` on.
    Copy { at: usize, to: u16, more: u16 },
}

/// The bytes of its instructions.
pub(crate) fn bytes_of(task: Task) -> usize
    ensures { result ≡ bytes_of_task task }
{
    match task {
        Task::Vector { .. } | Task::Word { .. } => 6,
        Task::Byte { .. } => 5,
        Task::Copy { .. } => 12,
    }
}

/// Whether start-up leads to a part with this entry.
pub(crate) fn is_main(entry: Entry) -> bool
    ensures { result ≡ is_main entry }
{
    match entry {
        Entry::Main => true,
        Entry::Vector(_) | Entry::Unserved | Entry::Call => false,
    }
}

/// Whether a part with this entry serves the vectors without a part of their own.
pub(crate) fn is_unserved(entry: Entry) -> bool
    ensures { result ≡ is_unserved entry }
{
    match entry {
        Entry::Unserved => true,
        Entry::Main | Entry::Vector(_) | Entry::Call => false,
    }
}

/// Whether a part with this entry serves the vector.
fn is_serving(vector: u8, entry: Entry) -> bool
    ensures { result ≡ is_serving vector entry }
{
    match entry {
        Entry::Vector(number) => number == vector,
        Entry::Main | Entry::Unserved | Entry::Call => false,
    }
}

/// The first part that serves the vector.
fn serving(parts: &[Part], vector: u8) -> Option<usize>
    ensures { result ≡ serving parts.now vector }
{
    parts.iter().position(|part| is_serving(vector, part.entry))
}

/// The vector leads to this part, if there is one.
fn lead(tasks: &mut Vec<Task>, vector: u8, part: Option<usize>) -> Result<(), Fault>
    ensures tasks { OnOk result (tasks.new.items ≡ tasks.old.items ++ vector_task vector part) }
    ensures memory { IsOkUnless result Fault.Memory }
{
    if let Some(part) = part {
        tasks.push(Task::Vector { vector, part })?;
    }
    Ok(())
}

/// Every vector that a part serves leads to the first such part.
pub(crate) fn vectors(alloc: Global, parts: &[Part]) -> Result<Vec<Task>, Fault>
    ensures tasks { IfOk result (λ tasks. tasks.items ≡ vector_tasks parts.now 0 256) }
    ensures memory { IsOkUnless result Fault.Memory }
{
    let mut tasks = Vec::new(alloc);
    for number in 0..256u16 {
        let vector = number as u8;
        lead(&mut tasks, vector, serving(parts, vector))?;
    }
    Ok(tasks)
}
