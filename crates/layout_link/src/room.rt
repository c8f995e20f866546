//! What start-up takes of a ROM.

ghost use Rattle.std.specs.Prelude.{◌≡◌, IfOk, length};
ghost use Rattle.layout_link.specs.Linker.{start_up_in, initial_in};
ghost use Rattle.layout_link.specs.Tasks.{start_up_bytes};

use crate::initial::initial;
use crate::linker::room_behind;
use crate::objects::offsets_of;
use crate::startup::START_UP;
use crate::tasks::{Task, vectors};
use plm_decl::Names;
use select::Part;
use std::alloc::Global;
use word86::{Fault, Number};

/// More bytes than start-up has in any ROM.
const LARGE: usize = 0x10_0000;

/// How many bytes start-up takes of a ROM.
#[derive(Clone, Copy)]
pub struct StartUpRoom {
    /// Its code.
    pub code: usize,
    /// The initial bytes that it copies.
    pub copied: usize,
}

/// The bytes of the code that does these tasks; E601 where no ROM has room for it.
fn code_of(tasks: &[Task]) -> Result<usize, Fault>
    ensures { IfOk result (λ bytes. bytes ≡ start_up_bytes tasks.now) }
{
    match room_behind(tasks, LARGE) {
        Some(left) => Ok(START_UP + (LARGE - left)),
        None => Err(Fault::At(0, 1, Number::E601)),
    }
}

/// What start-up takes of a ROM with these parts, by which `link` decides whether all fits. `Memory` is its refusal, and E601 where its code alone
/// is larger than any ROM.
pub fn start_up_room(alloc: Global, parts: &[Part], names: &Names) -> Result<StartUpRoom, Fault>
    ensures code { IfOk result (λ room. room.code ≡ start_up_in names.now parts.now) }
    ensures copied { IfOk result (λ room. room.copied ≡ length (initial_in names.now)) }
{
    let offsets = offsets_of(alloc, &names.objects)?;
    let mut tasks = vectors(alloc, parts)?;
    let bytes = initial(alloc, names, &offsets, &mut tasks)?;
    Ok(StartUpRoom {
        code: code_of(&tasks)?,
        copied: bytes.len(),
    })
}
