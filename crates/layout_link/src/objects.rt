//! Where the objects of a program lie.

ghost use Rattle.std.specs.Prelude.{◌≡◌, ◌≤◌, IfOk, IsOkUnless, map};
ghost use Rattle.std.specs.List.{sum_by};
ghost use Rattle.word86.specs.MemoryMap.{first_offset, data_room};
ghost use Rattle.layout_link.specs.Objects.{offsets_from};

use plm_decl::Object;
use std::alloc::Global;
use word86::{FIRST_OFFSET, Fault};

/// An offset in the data segment for each object, one after another from `FIRST_OFFSET` on.
pub(crate) fn offsets_of(alloc: Global, objects: &[Object]) -> Result<Vec<u16>, Fault>
    requires { sum_by (λ o. o.size) objects.now ≤ data_room }
    ensures offsets { IfOk result (λ v. v.items ≡ offsets_from first_offset (map (λ o. o.size) objects.now)) }
    ensures memory { IsOkUnless result Fault.Memory }
{
    let mut offsets = Vec::with_capacity(alloc, objects.len())?;
    let mut next = FIRST_OFFSET;
    for object in objects {
        offsets.push(next)?;
        next += object.size as u16;
    }
    Ok(offsets)
}
