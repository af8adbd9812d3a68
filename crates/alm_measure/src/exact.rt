//! Vectors with room for what they hold, and no more.

ghost use Rattle.std.specs.Prelude.{◌≡◌, IfOk, length, vec_capacity};

use std::alloc::{AllocError, Global};

/// The same items.
pub fn exact<T: Drop>(alloc: Global, items: Vec<T>) -> Result<Vec<T>, AllocError>
    ensures items { IfOk result (λ moved. moved.items ≡ items.items) }
    ensures room { IfOk result (λ moved. vec_capacity moved ≡ length moved.items) }
{
    let mut moved = Vec::with_capacity(alloc, items.len())?;
    for item in items {
        moved.push_reserved(item);
    }
    Ok(moved)
}
