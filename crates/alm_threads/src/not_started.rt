//! A run that wasn't started.

use crate::start_fault::StartFault;
use alm_store::Store;

/// Why the threads don't run, and the store that they would have run over.
#[derive(Drop)]
pub struct NotStarted<K: Store> {
    pub fault: StartFault,
    pub store: K,
}

impl<K: Store> NotStarted<K> {
    ghost use Rattle.std.specs.Prelude.{◌≡◌};

    /// Out of memory.
    pub fn out_of_memory(store: K) -> Self
        ensures { result.store ≡ store }
    {
        NotStarted {
            fault: StartFault::OutOfMemory,
            store,
        }
    }
}
