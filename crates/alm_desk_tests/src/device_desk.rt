//! A desk over a device in memory.

use crate::desk::printed;
use alm_desk::{Backend, JudgedRequest, LocalDesk, Stopped, worked_table};
use alm_disk::{Disk, MemDisk};
use alm_keeper::{OpenFault, format};
use alm_stack::Stack;
use alm_types::{Answer, Query, Refusal, Request};
use std::alloc::{AllocError, Global};

/// How many bytes the worked device has.
const SIZE: usize = 28_997;

/// More device calls than a row makes.
const MANY: usize = 4000;

/// The stack over a device in memory: a type of its own, which is no plant.
#[derive(Drop)]
pub struct DeviceStack {
    stack: Stack<MemDisk>,
}

impl Backend for DeviceStack {
    ghost stands = { λ s. ⟦<Stack<MemDisk> as Backend>⟧.stands s.stack };

    ghost kept = { λ s. ⟦<Stack<MemDisk> as Backend>⟧.kept s.stack };

    ghost failures = { λ s. ⟦<Stack<MemDisk> as Backend>⟧.failures s.stack };

    fn submit(&mut self, request: &Request) -> Result<JudgedRequest, Stopped> {
        self.stack.submit(request)
    }

    fn ask(&mut self, query: Query, answer: &mut Answer) -> Result<u64, Refusal> {
        self.stack.ask(query, answer)
    }

    fn is_stopped(&self) -> bool {
        self.stack.is_stopped()
    }

    fn failures(&self) -> u64 {
        self.stack.failures()
    }
}

/// A device in memory, formatted for the worked table, that fails after `calls` calls, those of the format included.
fn formatted(alloc: Global, calls: usize) -> Result<MemDisk, AllocError> {
    let table = worked_table(alloc)?;
    let disk = MemDisk::new(alloc, vec![in alloc; 0u8; SIZE]?, calls)?;
    match format(alloc, disk, &table) {
        Ok(disk) => Ok(disk),
        Err(_) => Err(AllocError),
    }
}

/// The stack over a device, or why it isn't opened.
fn stack_over(alloc: Global, disk: MemDisk) -> Result<DeviceStack, OpenFault> {
    match Stack::open(alloc, disk) {
        Ok(stack) => Ok(DeviceStack { stack }),
        Err((fault, _)) => Err(fault),
    }
}

/// The stack over a device that fails after `calls` calls, those of its format included. Also an error if it isn't opened.
fn open_stack(alloc: Global, calls: usize) -> Result<DeviceStack, AllocError> {
    let disk = formatted(alloc, calls)?;
    match stack_over(alloc, disk) {
        Ok(stack) => Ok(stack),
        Err(_) => Err(AllocError),
    }
}

/// Why the stack isn't opened over a device of which one byte is set; `None` if it is.
pub fn fault_with(alloc: Global, at: u64, byte: u8) -> Result<Option<OpenFault>, AllocError> {
    let mut disk = formatted(alloc, MANY)?;
    if at < disk.size() {
        let _put = disk.write_at(at, &[byte]);
        let _synced = disk.sync();
    }
    match stack_over(alloc, disk) {
        Ok(stack) => {
            drop(stack);
            Ok(None)
        }
        Err(fault) => Ok(Some(fault)),
    }
}

/// Whether the stack is opened over a device that fails after `calls` calls.
pub fn opens(alloc: Global, calls: usize) -> bool {
    match open_stack(alloc, calls) {
        Ok(stack) => {
            drop(stack);
            true
        }
        Err(_) => false,
    }
}

/// Whether a new desk prints this for these lines, and has stopped then or not.
fn answers_by<B: Backend + Drop>(
    alloc: Global,
    backend: B,
    lines: &[u8],
    wanted: &[u8],
    stops: bool,
) -> bool {
    let Ok(mut desk) = LocalDesk::new(alloc, backend) else {
        return false;
    };
    let same = match printed(alloc, &mut desk, lines) {
        Ok(got) => got.as_slice() == wanted,
        Err(_) => false,
    };
    same && desk.stopped() == stops && desk.failures() == u64::from(stops)
}

/// Whether a desk over a device that fails after `calls` calls prints this for these lines, and has stopped then or not.
pub fn answers(alloc: Global, calls: usize, lines: &[u8], wanted: &[u8], stops: bool) -> bool {
    match open_stack(alloc, calls) {
        Ok(stack) => answers_by(alloc, stack, lines, wanted, stops),
        Err(_) => false,
    }
}

/// Whether a new desk over a device that doesn't fail prints this for these lines.
pub fn prints_over_a_device(alloc: Global, lines: &[u8], wanted: &[u8]) -> bool {
    answers(alloc, MANY, lines, wanted, false)
}
