//! The lines of faults that no run of these tests brings about: those of a device that fails as it is opened or
//! formatted, of memory and of ports.

use crate::runs::{BROKEN, is_status};
use alm_file::FileFault;
use alm_keeper::{FormatFault, OpenFault};
use alm_program::{Fault, end_of, file_fault};
use std::alloc::AllocError;
use std::io::{Error, ErrorKind};

/// Whether the program ends with this line and status 3 by a fault.
fn is_told(rt: &HostRuntime, fault: Fault, line: &[u8]) -> bool {
    let mut told = Vec::new(rt.alloc());
    let ended = end_of(Err(fault), &mut told);
    told.as_slice() == line && is_status(rt.alloc(), ended, BROKEN)
}

#[test]
fn a_device_that_fails_as_it_is_opened_or_formatted(rt: HostRuntime) {
    assert!(rt; is_told(&rt, Fault::from(OpenFault::Disk), b"fault disk\n"));
    assert!(rt; is_told(&rt, Fault::from(FormatFault::Disk), b"fault disk\n"));
    let failed = file_fault(FileFault::Sync(Error::from(ErrorKind::Other)));
    assert!(rt; is_told(&rt, failed, b"fault disk\n"));
    let refused = file_fault(FileFault::Io(Error::from(ErrorKind::Other)));
    assert!(rt; is_told(&rt, refused, b"fault io\n"));
}

#[test]
fn want_of_memory(rt: HostRuntime) {
    assert!(rt; is_told(&rt, Fault::from(AllocError), b"fault memory\n"));
    assert!(rt; is_told(&rt, Fault::from(OpenFault::OutOfMemory), b"fault memory\n"));
    assert!(rt;
        is_told(
            &rt,
            Fault::from(FormatFault::OutOfMemory),
            b"fault memory\n"
        )
    );
}

#[test]
fn the_line_of_a_port(rt: HostRuntime) {
    assert!(rt; is_told(&rt, Fault::Net, b"fault net\n"));
}
