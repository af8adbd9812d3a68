//! A desk whose storage stops.

use crate::process::Process;
use crate::runs::{BROKEN, DONE, Ending, MANY, is_status};
use crate::script::{Script, Step};
use alm_common_tests::holds_at;
use alm_desk::{Backend, JudgedRequest, Stopped, worked_table};
use alm_disk::MemDisk;
use alm_keeper::format;
use alm_program::{end_of, run_desk_over};
use alm_stack::Stack;
use alm_types::{Answer, Query, Refusal, Request};
use std::alloc::{AllocError, Global};
use std::test::Fail;

/// The smallest device that takes the worked table.
const SIZE: usize = 28_997;

/// Ten calls format the device, a sync and five reads open it, and an action takes four.
const OPENED: usize = 16;

const ACTION: usize = 4;

/// The stack over a device in memory: a type of its own, which is no plant.
#[derive(Drop)]
struct MemStack {
    stack: Stack<MemDisk>,
}

impl Backend for MemStack {
    ghost stands = { λ s. ⟦<Stack<MemDisk> as Backend>⟧.stands s.stack };

    ghost kept = { λ s. ⟦<Stack<MemDisk> as Backend>⟧.kept s.stack };

    ghost failures = { λ s. ⟦<Stack<MemDisk> as Backend>⟧.failures s.stack };

    fn submit(&mut self, request: &Request) -> Result<JudgedRequest, Stopped> {
        self.stack.submit(request)
    }

    fn ask(&mut self, query: Query, answer: &mut Answer) -> Result<u64, Refusal> {
        self.stack.ask(query, answer)
    }

    fn is_stopped(&self) -> bool {
        self.stack.is_stopped()
    }

    fn failures(&self) -> u64 {
        self.stack.failures()
    }
}

/// The stack over a formatted device that fails after `calls` calls.
fn open_stack(alloc: Global, calls: usize) -> Result<MemStack, AllocError> {
    let table = worked_table(alloc)?;
    let disk = MemDisk::new(alloc, vec![in alloc; 0u8; SIZE]?, calls)?;
    let Ok(disk) = format(alloc, disk, &table) else {
        return Err(AllocError);
    };
    match Stack::open(alloc, disk) {
        Ok(stack) => Ok(MemStack { stack }),
        Err(_) => Err(AllocError),
    }
}

/// Two actions and a query.
const LINES: &[u8] = b"17 1 CLOCK 1000\n16 2 VAL 0 800\n0 3 STATE 0\n";

/// Whether a desk over a device that fails after `calls` calls of these lines ends so.
fn ends_by(rt: &HostRuntime, calls: usize, (status, printed, errors): Ending<'_>) -> bool {
    let steps = [Step::Gives(LINES)];
    let process = Process::new(rt, b"", Script::new(&steps), MANY);
    let Ok(stack) = open_stack(rt.alloc(), calls) else {
        return false;
    };
    let mut told = Vec::new(rt.alloc());
    let ended = end_of(run_desk_over(&process, stack), &mut told);
    let written = process.into_printed();
    let same = written.as_slice() == printed && told.as_slice() == errors;
    same && is_status(rt.alloc(), ended, status)
}

#[test]
fn a_desk_goes_on_to_the_end_behind_a_storage_fault(rt: HostRuntime) -> Result<(), Fail> {
    let fault = b"fault stopped\n".as_slice();
    let endings: [(usize, Ending<'_>); 3] = [
        (
            OPENED,
            (BROKEN, b"17 1 NO 15\n16 2 NO 15\n0 3 NO 15\n", fault),
        ),
        (
            OPENED + ACTION,
            (BROKEN, b"17 1 OK 1\n16 2 NO 15\n0 3 NO 15\n", fault),
        ),
        (
            OPENED + 2 * ACTION,
            (
                DONE,
                b"17 1 OK 1\n16 2 OK 2\n0 3 STATE 2 UNACK 1 - -\n",
                b"",
            ),
        ),
    ];
    for (calls, ending) in endings {
        let same = ends_by(&rt, calls, ending);
        holds_at(calls, same)?;
    }
    Ok(())
}
