//! The paths of what stands in blocks.

ghost use Rattle.std.specs.Prelude.{◌≡◌, ◌++◌, IfOk};
ghost use Rattle.plm_decl.specs.Spelling.{name_after, block_after, constants_after};

use itoa::Buffer;
use std::alloc::{AllocError, Global};

/// The path of a name in normal form that stands in a block.
pub fn name_path(alloc: Global, block: &[u8], name: &[u8]) -> Result<Vec<u8>, AllocError>
    ensures { IfOk result (λ p. p.items ≡ name_after block.now name.now) }
{
    let mut path = Vec::from_slice(alloc, block)?;
    path.extend_from_slice(b".")?;
    path.extend_from_slice(name)?;
    Ok(path)
}

/// The path of an unnamed block, the k-th of its module.
pub fn block_path(alloc: Global, block: &[u8], k: usize) -> Result<Vec<u8>, AllocError>
    ensures { IfOk result (λ p. p.items ≡ block_after block.now k) }
{
    let mut buffer = Buffer::new();
    let mut path = Vec::from_slice(alloc, block)?;
    path.extend_from_slice(b".#")?;
    path.extend_from_slice(buffer.format(k).as_bytes())?;
    Ok(path)
}

/// The path of constant bytes, the k-th of their module.
pub fn constants_path(alloc: Global, block: &[u8], k: usize) -> Result<Vec<u8>, AllocError>
    ensures { IfOk result (λ p. p.items ≡ constants_after block.now k) }
{
    let mut buffer = Buffer::new();
    let mut path = Vec::from_slice(alloc, block)?;
    path.extend_from_slice(b".#S")?;
    path.extend_from_slice(buffer.format(k).as_bytes())?;
    Ok(path)
}
