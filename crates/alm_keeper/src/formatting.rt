//! The ten device calls that format a device. The header's gate is closed; all else is written after it, and half 0's gate is
//! opened; then the header's gate is opened.

ghost use Rattle.std.specs.Prelude.{◌≡◌, ◌≤◌, ◌<◌, ◌+◌, ◌↔◌, ◌⊎◌, ◌∷◌, [], ℕ, List, false, length, OnOk, OnErr};
ghost use Rattle.alm_disk.specs.Device.{IsImage, Writes, Syncs};
ghost use Rattle.alm_disk.specs.Failures.{CountsFault};
ghost use Rattle.alm_disk.specs.Settled.{IsSettled};
ghost use Rattle.alm_checkpoint.specs.Layouts.{layout_byte, is_header_open, device_len, image_size};
ghost use Rattle.alm_keeper.specs.Formatting.{IsShut, IsUnformatted, StaysUnformatted, LeavesBefore, with_empty_half, with_open_gate, IsGateClosed, IsWithGateOpen, IsWritten, Leaves};
ghost use Rattle.alm_keeper.specs.Moments.{FormatMoment, Never, IsLedBy, FailsIn, close_calls, behind_calls, open_calls, format_calls};
ghost use Rattle.alm_disk.specs.declared.call.Call.TheVariants.{Write, Sync};

use alm_checkpoint::{HEADER_LEN, Half, Layout};
use alm_codec::OPEN_GATE;
use alm_disk::{Disk, DiskFault};

/// Closes the header's gate.
fn close_header<D: Disk>(disk: &mut D) -> Result<(), DiskFault>
    requires gate { 1 ≤ D.size disk.old }
    ensures honest { D.honest disk.old ↔ D.honest disk.new }
    ensures size { D.size disk.new ≡ D.size disk.old }
    ensures counts { CountsFault result (D.failures disk.old) (D.failures disk.new) }
    ensures settled { D.honest disk.old →
        OnOk result (IsSettled (D.state disk.new) (D.state disk.new).bytes) }
    ensures shut { D.honest disk.old → (D.state disk.old).faulted ≡ false →
        OnOk result (IsShut (D.state disk.new)) }
    ensures before { D.honest disk.old →
        OnErr result (LeavesBefore (D.state disk.old) (D.state disk.new)) }
    ensures goes { OnOk result
        (IsLedBy (FormatMoment D.serves D.state (Unit {0}) Never) disk.old close_calls disk.new) }
    ensures fails { OnErr result
        (FailsIn (FormatMoment D.serves D.state (Unit {0}) Never) disk.old close_calls disk.new) }
{
    disk.write_at(0, &[0])?;
    disk.sync()
}

/// Writes after the header's closed gate.
fn write_shut<D: Disk>(disk: &mut D, at: u64, bytes: &[u8]) -> Result<(), DiskFault>
    requires behind { 1 ≤ at }
    requires in_range { at + length bytes.now ≤ D.size disk.old }
    ensures honest { D.honest disk.old ↔ D.honest disk.new }
    ensures size { D.size disk.new ≡ D.size disk.old }
    ensures count { CountsFault result (D.failures disk.old) (D.failures disk.new) }
    ensures serves { D.serves disk.old (Write at (length bytes.now)) result disk.new }
    ensures writes { D.honest disk.old →
        Writes at bytes.now result (D.state disk.old) (D.state disk.new) }
    ensures shut { D.honest disk.old → IsShut (D.state disk.old) → IsShut (D.state disk.new) }
    ensures any_moment { D.honest disk.old → IsShut (D.state disk.old) →
        StaysUnformatted (D.state disk.old) (D.state disk.new) }
{
    disk.write_at(at, bytes)
}

/// Syncs what was written so.
fn sync_shut<D: Disk>(disk: &mut D) -> Result<(), DiskFault>
    ensures honest { D.honest disk.old ↔ D.honest disk.new }
    ensures size { D.size disk.new ≡ D.size disk.old }
    ensures count { CountsFault result (D.failures disk.old) (D.failures disk.new) }
    ensures serves { D.serves disk.old Sync result disk.new }
    ensures syncs { D.honest disk.old → Syncs result (D.state disk.old) (D.state disk.new) }
    ensures shut { D.honest disk.old → IsShut (D.state disk.old) →
        OnOk result (IsShut (D.state disk.new)) }
    ensures any_moment { D.honest disk.old → IsShut (D.state disk.old) →
        StaysUnformatted (D.state disk.old) (D.state disk.new) }
{
    disk.sync()
}

/// The header, half 0 up to its segment's first gate, and half 1's gate, all after the header's closed gate; then half 0's gate
/// is opened. `half` begins with the closed gate of half 0. A crash within leaves a device that isn't formatted.
fn write_behind<D: Disk>(
    disk: &mut D,
    layout: &Layout,
    header: &[u8],
    half: &[u8],
) -> Result<(), DiskFault>
    requires header { length header.now ≡ 22 }
    requires half { length half.now ≡ 26 + image_size layout.now }
    requires fits { device_len layout.now ≤ D.size disk.old }
    requires segment { 1 ≤ layout.now.segment }
    ensures honest { D.honest disk.old ↔ D.honest disk.new }
    ensures size { D.size disk.new ≡ D.size disk.old }
    ensures counts { CountsFault result (D.failures disk.old) (D.failures disk.new) }
    ensures filled { D.honest disk.old → (D.state disk.old).faulted ≡ false →
        OnOk result
        (IsSettled (D.state disk.new)
        (with_empty_half layout.now header.now half.now (D.state disk.old).bytes)) }
    ensures shut { D.honest disk.old → IsShut (D.state disk.old) →
        OnOk result (IsShut (D.state disk.new)) }
    ensures unformatted { D.honest disk.old → IsShut (D.state disk.old) →
        StaysUnformatted (D.state disk.new) (D.state disk.new) }
    ensures goes { OnOk result
        (IsLedBy
        (FormatMoment D.serves D.state (D.honest disk.old × IsShut (D.state disk.old)) Never)
        disk.old (behind_calls layout.now) disk.new) }
    ensures fails { OnErr result
        (FailsIn
        (FormatMoment D.serves D.state (D.honest disk.old × IsShut (D.state disk.old)) Never)
        disk.old (behind_calls layout.now) disk.new) }
{
    write_shut(disk, 1, header)?;
    write_shut(disk, HEADER_LEN as u64, half)?;
    write_shut(
        disk,
        layout.half_at(Half::Second),
        &[layout.version.closed_gate()],
    )?;
    sync_shut(disk)?;
    write_shut(disk, HEADER_LEN as u64, &[OPEN_GATE])?;
    sync_shut(disk)
}

/// Writes the header's gate open: a crash within leaves a device that isn't formatted, or with the open gate.
fn open_gate<D: Disk>(disk: &mut D) -> Result<(), DiskFault>
    requires gate { 1 ≤ D.size disk.old }
    ensures honest { D.honest disk.old ↔ D.honest disk.new }
    ensures size { D.size disk.new ≡ D.size disk.old }
    ensures count { CountsFault result (D.failures disk.old) (D.failures disk.new) }
    ensures serves { D.serves disk.old (Write 0 1) result disk.new }
    ensures writes { D.honest disk.old →
        Writes 0 (165 ∷ []) result (D.state disk.old) (D.state disk.new) }
    ensures any_moment { (b c : List ℕ) → D.honest disk.old → IsSettled (D.state disk.old) b →
        is_header_open (layout_byte b 0) ≡ false →
        IsImage (D.state disk.old) c ⊎ IsImage (D.state disk.new) c →
        IsUnformatted c ⊎ (c ≡ with_open_gate b) }
{
    disk.write_at(0, &[OPEN_GATE])
}

/// Syncs what was written: a crash within leaves only what it could leave before.
fn sync_open<D: Disk>(disk: &mut D) -> Result<(), DiskFault>
    ensures honest { D.honest disk.old ↔ D.honest disk.new }
    ensures size { D.size disk.new ≡ D.size disk.old }
    ensures count { CountsFault result (D.failures disk.old) (D.failures disk.new) }
    ensures serves { D.serves disk.old Sync result disk.new }
    ensures syncs { D.honest disk.old → Syncs result (D.state disk.old) (D.state disk.new) }
    ensures any_moment { (c : List ℕ) → D.honest disk.old → IsImage (D.state disk.new) c →
        IsImage (D.state disk.old) c }
{
    disk.sync()
}

/// Opens the header's gate.
fn open_header<D: Disk>(disk: &mut D) -> Result<(), DiskFault>
    requires gate { 1 ≤ D.size disk.old }
    ensures honest { D.honest disk.old ↔ D.honest disk.new }
    ensures size { D.size disk.new ≡ D.size disk.old }
    ensures counts { CountsFault result (D.failures disk.old) (D.failures disk.new) }
    ensures opened { (b : List ℕ) → D.honest disk.old → IsSettled (D.state disk.old) b →
        OnOk result (IsSettled (D.state disk.new) (with_open_gate b)) }
    ensures either { (b c : List ℕ) → D.honest disk.old → IsSettled (D.state disk.old) b →
        is_header_open (layout_byte b 0) ≡ false → IsImage (D.state disk.new) c →
        IsUnformatted c ⊎ (c ≡ with_open_gate b) }
    ensures goes { OnOk result
        (IsLedBy
        (FormatMoment D.serves D.state (D.honest disk.old × IsGateClosed (D.state disk.old))
        (IsWithGateOpen (D.state disk.old))) disk.old open_calls disk.new) }
    ensures fails { OnErr result
        (FailsIn
        (FormatMoment D.serves D.state (D.honest disk.old × IsGateClosed (D.state disk.old))
        (IsWithGateOpen (D.state disk.old))) disk.old open_calls disk.new) }
{
    open_gate(disk)?;
    sync_open(disk)
}

/// The ten calls. `half` begins with the closed gate of half 0.
pub fn write_all<D: Disk>(
    disk: &mut D,
    layout: &Layout,
    header: &[u8],
    half: &[u8],
) -> Result<(), DiskFault>
    requires header { length header.now ≡ 22 }
    requires half { length half.now ≡ 26 + image_size layout.now }
    requires fits { device_len layout.now ≤ D.size disk.old }
    requires segment { 1 ≤ layout.now.segment }
    ensures honest { D.honest disk.old ↔ D.honest disk.new }
    ensures size { D.size disk.new ≡ D.size disk.old }
    ensures counts { CountsFault result (D.failures disk.old) (D.failures disk.new) }
    ensures settled { D.honest disk.old →
        OnOk result (IsSettled (D.state disk.new) (D.state disk.new).bytes) }
    ensures written { D.honest disk.old →
        OnOk result
        (IsWritten (D.size disk.old) layout.now header.now half.now (D.state disk.new).bytes) }
    ensures goes { OnOk result
        (IsLedBy
        (FormatMoment D.serves D.state (D.honest disk.old × ((D.state disk.old).faulted ≡ false))
        (IsWritten (D.size disk.old) layout.now header.now half.now)) disk.old
        (format_calls layout.now) disk.new) }
    ensures fails { OnErr result
        (FailsIn
        (FormatMoment D.serves D.state (D.honest disk.old × ((D.state disk.old).faulted ≡ false))
        (IsWritten (D.size disk.old) layout.now header.now half.now)) disk.old
        (format_calls layout.now) disk.new) }
    ensures leaves { D.honest disk.old → (D.state disk.old).faulted ≡ false →
        OnErr result
        (Leaves (D.size disk.old) layout.now header.now half.now (D.state disk.old)
        (D.state disk.new)) }
{
    close_header(disk)?;
    write_behind(disk, layout, header, half)?;
    open_header(disk)
}
