//! What was made, with what stands around it, for values of any type: what becomes of a value where memory is refused is proved here alone.

ghost use Rattle.std.specs.Prelude.{◌≡◌, ◌++◌, ◌∷◌, [], IfOk, IsOkAnd, Ok, OnOk};

use std::alloc::{AllocError, Global};

/// What was made, in a box.
pub(crate) fn boxed<T: Drop>(
    alloc: Global,
    made: Result<T, AllocError>,
) -> Result<Box<T>, AllocError>
    ensures { IfOk result (λ b. made ≡ Ok b.value) }
{
    let value = made?;
    Ok(Box::new(alloc, value)?)
}

/// Puts a value at the end of a list.
pub(crate) fn append<T: Drop>(list: &mut Vec<T>, value: T) -> Result<(), AllocError>
    ensures { OnOk result (list.new.items ≡ list.old.items ++ value ∷ []) }
{
    list.push(value)?;
    Ok(())
}

/// Puts what was made at the end of a list.
pub(crate) fn pushed<T: Drop>(
    list: &mut Vec<T>,
    made: Result<T, AllocError>,
) -> Result<(), AllocError>
    ensures { OnOk result (IsOkAnd made (λ x. list.new.items ≡ list.old.items ++ x ∷ [])) }
{
    let value = made?;
    list.push(value)?;
    Ok(())
}
