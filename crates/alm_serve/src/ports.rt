//! Ports of loopback.

ghost use Rattle.std.specs.Prelude.{◌≤◌};

use crate::listen::Listen;
use crate::opening::{SlotPorts, open_ports};
use crate::patience::Patience;
use crate::port_fault::PortFault;
use alm_lines::Part;
use alm_rings::Told;
use alm_types::Slot;
use std::alloc::Global;
use std::net::Net;
use std::time::Clock;

/// Ports of loopback, from this one on.
#[derive(Clone, Copy)]
pub struct Ports<'a> {
    pub first: u16,
    /// How long a device call may take; without a limit if it is missing.
    pub patience: Option<&'a Patience>,
    pub ghost ports: { first ≤ 65518 },
}

impl<R: Net + Clock> Listen<R> for Ports<'_> {
    ghost use Rattle.std.specs.Prelude.{decimal};

    ghost name = { λ ports. decimal ports.first };

    fn name(&self) -> Part<'_> {
        Part::Number(u64::from(self.first))
    }

    fn open<'r, T: Told + Drop>(
        &self,
        rt: &'r R,
        alloc: Global,
        slots: &[Slot],
        conns: u32,
    ) -> Result<SlotPorts<'r, R, T>, PortFault> {
        open_ports(rt, alloc, slots, self.first, conns, self.patience)
    }
}
