//! The sockets of a folder.

use crate::listen::Listen;
use crate::opening::{SlotPorts, open_sockets};
use crate::patience::Patience;
use crate::port_fault::PortFault;
use alm_lines::Part;
use alm_rings::Told;
use alm_types::Slot;
use std::alloc::Global;
use std::fs::{File, Files};
use std::net::Net;
use std::time::Clock;

/// The sockets of this folder.
#[derive(Clone, Copy)]
pub struct Sockets<'a> {
    pub folder: &'a str,
    /// How long a device call may take; without a limit if it is missing.
    pub patience: Option<&'a Patience>,
}

impl<R: Net + Clock + Files<File = File>> Listen<R> for Sockets<'_> {
    ghost name = { λ sockets. sockets.folder.now };

    fn name(&self) -> Part<'_> {
        Part::Word(self.folder)
    }

    fn open<'r, T: Told + Drop>(
        &self,
        rt: &'r R,
        alloc: Global,
        slots: &[Slot],
        conns: u32,
    ) -> Result<SlotPorts<'r, R, T>, PortFault> {
        open_sockets(rt, alloc, slots, self.folder, conns, self.patience)
    }
}
