//! Which RAM object has the byte at an address, so that an access through a base need not look for it.

ghost use Rattle.std.specs.Prelude.{◌≡◌, ℕ, ◌<◌, IfOk, length, slice_index};
ghost use Rattle.plm_decl.specs.Placement.{Has, IsPlacement};
ghost use Rattle.plm_meaning.specs.Inner.Redex.{sizes_in};
ghost use Rattle.plm_meaning.specs.Inner.Owners.{OwnTheirs, AreOwners};

use crate::access::PlacedObjects;
use std::alloc::{AllocError, Global};

const ADDRESSES: usize = 65_536;

// Makes an object the owner of its bytes.
fn claim(owners: &mut Vec<usize>, offset: u16, size: u64, object: usize)
    ensures own { (b : ℕ) → b < length owners.old.items → Has offset size b → slice_index owners.new.items b ≡ object }
    ensures others { (b : ℕ) → ¬ Has offset size b → slice_index owners.new.items b ≡ slice_index owners.old.items b }
    ensures length { length owners.new.items ≡ length owners.old.items }
{
    let from = usize::from(offset);
    let to = from.saturating_add(size as usize).min(owners.len());
    for address in from..to {
        owners[address] = object;
    }
}

// Makes each of the objects the owner of its bytes.
fn claim_all(owners: &mut Vec<usize>, objects: PlacedObjects<'_>)
    requires { IsPlacement objects.offsets.now (sizes_in objects) }
    ensures own { OwnTheirs owners.new.items objects.entry.offsets.now (sizes_in objects.entry) (length objects.entry.objects.now) }
    ensures length { length owners.new.items ≡ length owners.old.items }
{
    for k in 0..objects.objects.len() {
        claim(owners, objects.offset(k), objects.size(k), k);
    }
}

/// For each address the number of the RAM object that has the byte there; any number where none has it.
pub fn owners_of(alloc: Global, objects: PlacedObjects<'_>) -> Result<Vec<usize>, AllocError>
    requires { IsPlacement objects.offsets.now (sizes_in objects) }
    ensures { IfOk result (λ owners. AreOwners owners.items objects.entry.offsets.now (sizes_in objects.entry)) }
{
    let mut owners = vec![in alloc; 0; ADDRESSES]?;
    claim_all(&mut owners, objects);
    Ok(owners)
}
