//! What the slots can listen at.

use crate::opening::SlotPorts;
use crate::port_fault::PortFault;
use alm_lines::Part;
use alm_rings::Told;
use alm_types::Slot;
use std::alloc::Global;

/// What the slots can listen at.
pub trait Listen<R> {
    ghost use Rattle.std.specs.Prelude.{◌≡◌, ℕ, List, length, map, vec_len, IfOk};
    ghost use Rattle.alm_lines.specs.Parts.{part_text};
    ghost use Rattle.alm_serve.specs.Ports.{AreUnused};

    /// What is written of it.
    ghost name: { Self → List ℕ };

    /// What is written of it.
    fn name(&self) -> Part<'_>
        ensures { part_text result ≡ name self.now };

    /// Opens these slots, for `conns` connections in all; 0 is without end.
    fn open<'r, T: Told + Drop>(
        &self,
        rt: &'r R,
        alloc: Global,
        slots: &[Slot],
        conns: u32,
    ) -> Result<SlotPorts<'r, R, T>, PortFault>
        ensures ports { IfOk result (λ d. map (λ port. port.slot) d.ports.items ≡ slots.now) }
        ensures unused { IfOk result (λ d. AreUnused d.ports.items) }
        ensures bells { IfOk result (λ d. vec_len d.bells ≡ length slots.now) };
}
