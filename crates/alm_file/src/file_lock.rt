//! The lock on a device's file.

use std::fs::File;

/// The lock on a device's file. It ends with the device, or earlier if it is released.
#[derive(Drop)]
pub struct FileLock {
    pub(crate) file: File,
}

impl FileLock {
    /// Lets other processes have the file. If the system refuses that, the lock ends with the process.
    pub fn release(self) {
        let _ = self.file.unlock();
    }
}
