//! What the bytes of a device encode.

ghost use Rattle.std.specs.Prelude.{◌≡◌, ◌≤◌, ◌+◌, length, IfOk, IfErr};
ghost use Rattle.alm_checkpoint.specs.Layouts.{part};
ghost use Rattle.alm_checkpoint.specs.Restoring.{StandsIn, IsRefused};

use crate::half::Half;
use crate::header::read_header;
use crate::layout::{HEAD_LEN, HEADER_LEN, Layout};
use crate::restore_fault::RestoreFault;
use alm_codec::Version;
use alm_model::Alarms;
use std::alloc::Global;

/// What the bytes of a device encode.
#[derive(Drop)]
pub struct Recovered<P: Drop> {
    pub layout: Layout,
    /// The half that stands, its version and its epoch.
    pub half: Half,
    pub version: Version,
    pub epoch: u64,
    /// The place of the first closed gate of its segment on the device: the next frame goes after it.
    pub gate: u64,
    /// The plant, with the count of actions that made it.
    pub plant: P,
}

/// `n` bytes from a place on.
fn part(bytes: &[u8], at: u64, n: usize) -> &[u8]
    requires { at + n ≤ length bytes.now }
    ensures bytes { result.now ≡ part at n bytes.now }
    ensures len { length result.now ≡ n }
{
    let (_, rest) = bytes.split_at(at as usize);
    let (text, _) = rest.split_at(n);
    text
}

/// What the bytes of a whole device encode, or their first fault. Faults are checked in this order: the header, the choice
/// between the halves, the heads, then image and frames of the half that stands. The heads are that of the half that stands,
/// and in version 03 then that of the other half, if its gate is open.
pub fn recover<P: Alarms + Drop>(alloc: Global, device: &[u8]) -> Result<Recovered<P>, RestoreFault>
    ensures stands { IfOk result
        (λ r. StandsIn device.now r.layout r.half r.version r.epoch (P.plant r.plant) r.gate) }
    ensures fault { IfErr result (λ fault. IsRefused device.now fault) }
{
    let start = part(device, 0, HEADER_LEN.min(device.len()));
    let layout = match read_header(start, device.len() as u64) {
        Ok(layout) => layout,
        Err(fault) => return Err(RestoreFault::Damaged(fault)),
    };
    let first = part(device, layout.half_at(Half::First), HEAD_LEN);
    let second = part(device, layout.half_at(Half::Second), HEAD_LEN);
    let (half, head) = match layout.read_heads(first, second) {
        Ok(heads) => heads,
        Err(fault) => return Err(RestoreFault::Damaged(fault)),
    };
    let image = part(device, layout.image_at(half), layout.image_len());
    let segment = part(device, layout.segment_at(half), layout.segment());
    match layout.restore(alloc, half, &head, image, segment) {
        Ok((plant, gate)) => Ok(Recovered {
            layout,
            half,
            version: head.version,
            epoch: head.epoch,
            gate,
            plant,
        }),
        Err(fault) => Err(fault),
    }
}
