//! What was read, with what stands around it.
//!
//! These hold a value over a step that may fail, for values of any type: so what then becomes of the value is proved here alone.

ghost use Rattle.std.specs.Prelude.{◌≡◌, ◌++◌, ◌∷◌, [], None, Some, Ok, Err, IfOk, IfErr, IfSome, IfNone};
ghost use Rattle.plm_syntax.specs.declared.failure.Failure.TheVariants.{Memory};
ghost use Rattle.plm_syntax.specs.Inner.Parsed.{Closes, IsBoxed, IsBeside, IsPushed};

use crate::cursor::Cursor;
use crate::failure::Failure;
use plm_token::Mark;
use std::alloc::Global;

/// How many targets, subscripts and operators of one precedence there mostly are. A list takes room for so many at first.
pub(crate) const MOSTLY: usize = 1;

/// What was read, and what is left after the special token that has to come next.
pub(crate) fn closing<'t, 'a, T: Drop>(
    read: Result<(T, Cursor<'t, 'a>), Failure>,
    mark: Mark,
) -> Result<(T, Cursor<'t, 'a>), Failure>
    ensures { Closes mark read.entry result }
{
    let (value, rest) = read?;
    rest.close(value, mark)
}

/// What was read, in a box.
pub(crate) fn boxed<'t, 'a, T: Drop>(
    alloc: Global,
    read: Result<(T, Cursor<'t, 'a>), Failure>,
) -> Result<(Box<T>, Cursor<'t, 'a>), Failure>
    ensures { IsBoxed read.entry result }
{
    let (value, rest) = read?;
    Ok((Box::new(alloc, value)?, rest))
}

/// What was read before, beside what was read after it.
pub(crate) fn beside<'t, 'a, T: Drop, U>(
    first: T,
    read: Result<(U, Cursor<'t, 'a>), Failure>,
) -> Result<((T, U), Cursor<'t, 'a>), Failure>
    ensures { IsBeside first read.entry result }
{
    let (second, rest) = read?;
    Ok(((first, second), rest))
}

/// What is left after what was read, which goes to the end of a list.
pub(crate) fn pushed<'t, 'a, T: Drop>(
    list: &mut Vec<T>,
    read: Result<(T, Cursor<'t, 'a>), Failure>,
) -> Result<Cursor<'t, 'a>, Failure>
    ensures { IsPushed list.old.items list.new.items read.entry result }
{
    let (value, rest) = read?;
    list.push(value)?;
    Ok(rest)
}

/// The same where there may be nothing to read.
pub(crate) fn gathered<'t, 'a, T: Drop>(
    list: &mut Vec<T>,
    read: Result<Option<(T, Cursor<'t, 'a>)>, Failure>,
) -> Result<Option<Cursor<'t, 'a>>, Failure>
    ensures none { IfOk read.entry (λ found. IfNone found ((result ≡ Ok None) × (list.new.items ≡ list.old.items))) }
    ensures some { IfOk read.entry (λ found. IfSome found (λ x. IfOk result (λ rest. (rest ≡ Some x.1) × (list.new.items ≡ list.old.items ++ x.0 ∷ [])))) }
    ensures memory { IfOk read.entry (λ found. IfErr result (λ f. f ≡ Memory)) }
    ensures err { IfErr read.entry (λ f. result ≡ Err f) }
{
    match read? {
        None => Ok(None),
        Some((value, rest)) => {
            list.push(value)?;
            Ok(Some(rest))
        }
    }
}
