//! Devices over which no stack is opened.

use crate::device_desk::fault_with;
use alm_common_tests::same_at;
use alm_keeper::OpenFault;
use std::test::Fail;

/// A field that is damaged.
fn damaged(half: u8, at: u64) -> Option<OpenFault> {
    Some(OpenFault::Damaged { half, at })
}

#[test]
fn the_fault_of_a_device_is_told(rt: HostRuntime) -> Result<(), Fail> {
    for (at, byte, wanted) in [
        // the header's gate
        (0, 0x00, Some(OpenFault::Unformatted)),
        // its name, its alarms and its areas
        (1, b'B', damaged(2, 1)),
        (9, 0x01, damaged(2, 9)),
        (14, 0x00, damaged(2, 13)),
        // the gate of the one half that is open, and the length of its image
        (23, 0x00, damaged(2, 23)),
        (47, 0x00, damaged(0, 40)),
        // as it was
        (0, 0xA5, None),
    ] {
        let fault = fault_with(rt.alloc(), at, byte)?;
        same_at((at, byte), fault, wanted)?;
    }
    Ok(())
}
