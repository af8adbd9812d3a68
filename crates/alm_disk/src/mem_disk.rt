//! A device in memory.

ghost use Rattle.std.specs.Prelude.{◌≡◌, ◌≤◌, ◌<◌, ◌++◌, ◌∷◌, [], length, vec_capacity, IfOk};
ghost use Rattle.alm_disk.specs.Device.{AreBytes};
ghost use Rattle.alm_disk.specs.Failures.{last_count};
ghost use Rattle.alm_disk.specs.Settled.{IsSettled};

use crate::call::Call;
use crate::cells::{mark, put, settle, tear};
use crate::chooser::Chooser;
use crate::crashable::Crashable;
use crate::disk::Disk;
use crate::disk_fault::DiskFault;
use std::alloc::{AllocError, Global};

/// A device in memory, with a record of its calls. A write reads immediately, and is pending until the next sync. A
/// call that finds the record full fails.
#[derive(Drop)]
pub struct MemDisk {
    bytes: Vec<u8>,
    pending: Vec<bool>,
    faulted: bool,
    failures: u64,
    calls: Vec<Call>,
    room: usize,
    ghost beside: { length pending.items ≡ length bytes.items },
    ghost are_bytes: { AreBytes bytes.items },
    ghost counted: { failures ≤ last_count },
    ghost reserved: { room ≤ vec_capacity calls },
    ghost in_room: { length calls.items ≤ room },
}

impl MemDisk {
    ghost use Rattle.alm_disk.specs.Memory.{calls_of, record_room, state_of};

    /// A device with these bytes, settled, and room for a record of `calls` calls; an error only if out of memory.
    pub fn new(alloc: Global, bytes: Vec<u8>, calls: usize) -> Result<Self, AllocError>
        ensures settled { IfOk result (λ disk. IsSettled (state_of disk) bytes.items) }
        ensures count { IfOk result (λ disk. ⟦<MemDisk as Disk>⟧.failures disk ≡ 0) }
        ensures record { IfOk result (λ disk. (calls_of disk ≡ []) × (record_room disk ≡ calls)) }
    {
        let pending = vec![in alloc; false; bytes.len()]?;
        let record = Vec::with_capacity(alloc, calls)?;
        Ok(MemDisk {
            bytes,
            pending,
            faulted: false,
            failures: 0,
            calls: record,
            room: calls,
        })
    }

    /// The same device after this number of failures.
    pub fn with_failures(mut self, failures: u64) -> Self
        ensures state { state_of result ≡ state_of self }
        ensures count { ⟦<MemDisk as Disk>⟧.failures result ≡ failures }
        ensures record { (calls_of result ≡ calls_of self) × (record_room result ≡ record_room self) }
    {
        self.failures = failures;
        self
    }

    /// The bytes as they read.
    pub fn bytes(&self) -> &[u8]
        ensures { result.now ≡ (state_of self.now).bytes }
    {
        &self.bytes
    }

    /// How many calls have failed, up to the last count.
    pub fn failures(&self) -> u64
        ensures { result ≡ ⟦<MemDisk as Disk>⟧.failures self.now }
    {
        self.failures
    }

    /// The calls that were done, in their order.
    pub fn calls(&self) -> &[Call]
        ensures { result.now ≡ calls_of self.now }
    {
        &self.calls
    }

    /// Its bytes, if the device is no longer needed.
    pub fn into_bytes(self) -> Vec<u8>
        ensures { result.items ≡ (state_of self).bytes }
    {
        self.bytes
    }
}

// Notes a call if there is room.
fn note(calls: &mut Vec<Call>, call: Call)
    requires { length calls.old.items < vec_capacity calls.old }
    ensures noted { calls.new.items ≡ calls.old.items ++ call ∷ [] }
    ensures room { vec_capacity calls.new ≡ vec_capacity calls.old }
{
    calls.push_reserved(call);
}

impl Disk for MemDisk {
    ghost use Rattle.std.specs.Prelude.{length, refl};
    ghost use Rattle.alm_disk.specs.Memory.{MemServes, state_of};

    ghost honest = { λ _. Unit {0} };

    ghost state = { state_of };

    ghost size = { λ d. length d.bytes.items };

    ghost failures = { λ d. d.failures };

    ghost serves = { λ old call result new. MemServes call result old new };

    ghost whole = { λ disk _. refl };

    ghost own_image = { λ disk _.
        record { size = refl; bytes = disk.are_bytes; stable = λ place still. refl } };

    fn size(&self) -> u64 {
        self.bytes.len() as u64
    }

    fn read_at(&mut self, at: u64, into: &mut [u8]) -> Result<(), DiskFault> {
        let call = Call::Read {
            at,
            length: into.len() as u64,
        };
        if self.calls.len() == self.room {
            return Err(self.fail(call));
        }
        note(&mut self.calls, call);
        let from = at as usize;
        into.copy_from_slice(&self.bytes[from..from + into.len()]);
        Ok(())
    }

    fn write_at(&mut self, at: u64, bytes: &[u8]) -> Result<(), DiskFault> {
        let call = Call::Write {
            at,
            length: bytes.len() as u64,
        };
        if self.calls.len() == self.room {
            return Err(self.fail(call));
        }
        note(&mut self.calls, call);
        mark(&mut self.pending, at as usize, bytes.len());
        put(&mut self.bytes, at as usize, bytes);
        Ok(())
    }

    fn sync(&mut self) -> Result<(), DiskFault> {
        if self.calls.len() == self.room {
            return Err(self.fail(Call::Sync));
        }
        note(&mut self.calls, Call::Sync);
        settle(&mut self.pending);
        self.faulted = false;
        Ok(())
    }
}

impl Crashable for MemDisk {
    ghost use Rattle.alm_disk.specs.Memory.{GivesUp, calls_of, record_room};

    ghost restarts = { λ old new. (calls_of new ≡ calls_of old) × (record_room new ≡ record_room old) };

    ghost gives_up = { λ old call new. GivesUp call old new };

    fn crash<C: Chooser>(self, chooser: &mut C) -> Self {
        let MemDisk {
            mut bytes,
            mut pending,
            faulted: _,
            failures,
            calls,
            room,
        } = self;
        tear(&mut bytes, &pending, chooser);
        settle(&mut pending);
        MemDisk {
            bytes,
            pending,
            faulted: false,
            failures,
            calls,
            room,
        }
    }

    fn fail(&mut self, call: Call) -> DiskFault {
        self.failures = self.failures.saturating_add(1);
        match call {
            Call::Read { .. } => {}
            Call::Write { at, length } => {
                mark(&mut self.pending, at as usize, length as usize);
                self.faulted = true;
            }
            Call::Sync => self.faulted = true,
        }
        DiskFault
    }
}
