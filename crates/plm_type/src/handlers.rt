//! Who serves a vector: a table, made once for a program.

ghost use Rattle.std.specs.Prelude.{◌≡◌, ℕ, ◌<◌, IfOk, Some, slice_get};
ghost use Rattle.plm_type.specs.Programs.{handler_number};
ghost use Rattle.plm_type.specs.Inner.Handlers.{entered};

use plm_decl::Names;
use std::alloc::{AllocError, Global};

/// How many vectors there are.
const VECTORS: usize = 256;

/// Enters a procedure at the vector that it serves, where no procedure stands yet.
fn enter(table: &mut Vec<Option<usize>>, vector: Option<u32>, number: usize)
    ensures { table.new.items ≡ entered vector number table.old.items }
{
    let Some(vector) = vector else {
        return;
    };
    if let Some(None) = table.get(vector as usize) {
        table[vector as usize] = Some(number);
    }
}

/// For each vector the number of the procedure that serves it, the first one if there were two.
pub fn handler_numbers(alloc: Global, names: &Names) -> Result<Vec<Option<usize>>, AllocError>
    ensures { IfOk result (λ table. (v : ℕ) → v < 256 → slice_get table.items v ≡ Some (handler_number names.now v)) }
{
    let mut table = vec![in alloc; None; VECTORS]?;
    for (number, procedure) in names.procedures.iter().enumerate() {
        enter(&mut table, procedure.vector(), number);
    }
    Ok(table)
}
