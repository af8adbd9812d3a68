//! A write after a gate, one device call at a time.

ghost use Rattle.std.specs.Prelude.{◌≡◌, ◌↔◌, ◌<◌, ◌≤◌, ◌+◌, ◌^◌, length};
ghost use Rattle.alm_keeper.specs.Stages.{IsWorking};
ghost use Rattle.alm_disk.specs.Failures.{CountsFault};
ghost use Rattle.alm_keeper.specs.Calls.{stage_call};
ghost use Rattle.alm_store.specs.Calls.{IsCall};
ghost use Rattle.alm_keeper.specs.Phases.{StageCall};

use crate::stage::Stage;
use alm_codec::{OPEN_GATE, Version};
use alm_disk::{Disk, DiskFault};

/// The one device call of a stage, for the text after the gate at a place, on a device of a version.
pub fn call<D: Disk>(
    disk: &mut D,
    stage: Stage,
    at: u64,
    text: &[u8],
    version: Version,
) -> Result<(), DiskFault>
    requires working { IsWorking stage }
    requires room { (at + 1 + length text.now ≤ D.size disk.old) × (D.size disk.old < 2 ^ 64) }
    ensures honest { D.honest disk.old ↔ D.honest disk.new }
    ensures size { D.size disk.new ≡ D.size disk.old }
    ensures count { CountsFault result (D.failures disk.old) (D.failures disk.new) }
    ensures serves { D.serves disk.old (stage_call stage at (length text.now)) result disk.new }
    ensures is_call { D.honest disk.old → IsCall (D.state disk.old) (D.state disk.new) }
    ensures stage_call { D.honest disk.old →
        StageCall version stage at text.now result (D.state disk.old) (D.state disk.new) }
{
    match stage {
        Stage::Close => disk.write_at(at, &[version.closed_gate()]),
        Stage::CloseSync => disk.sync(),
        Stage::Body => disk.write_at(at + 1, text),
        Stage::BodySync => disk.sync(),
        Stage::Gate => disk.write_at(at, &[OPEN_GATE]),
        Stage::TurnSync => disk.sync(),
        Stage::Retire => disk.write_at(at, &[version.closed_gate()]),
        Stage::GateSync => disk.sync(),
        Stage::Idle | Stage::Stopped => unreachable!(),
    }
}
