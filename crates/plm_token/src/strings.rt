//! The values of strings.

ghost use Rattle.std.specs.Prelude.{◌≡◌, IfOk, false};
ghost use Rattle.plm_token.specs.Strings.{characters_from, string_characters};

use std::alloc::{AllocError, Global};

/// The characters that a string stands for, from its slice with both apostrophes: a doubled apostrophe is one.
///
/// Memory is its only error.
#[tactic(auto, unfolding(crate::specs::Strings::string_characters))]
pub fn string_value(alloc: Global, text: &[u8]) -> Result<Vec<u8>, AllocError>
    ensures { IfOk result (λ v. v.items ≡ string_characters text.now) }
{
    match text.split_first() {
        Some((_, behind)) => characters(alloc, behind),
        None => Ok(Vec::new(alloc)),
    }
}

/// The same from the slice after the opening apostrophe.
fn characters(alloc: Global, text: &[u8]) -> Result<Vec<u8>, AllocError>
    ensures { IfOk result (λ v. v.items ≡ characters_from false text.now) }
{
    let mut value = Vec::new(alloc);
    let mut pending = false;
    for character in text {
        if pending || *character != b'\'' {
            value.push(*character)?;
            pending = false;
        } else {
            pending = true;
        }
    }
    Ok(value)
}
