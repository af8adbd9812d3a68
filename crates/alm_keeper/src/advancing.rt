//! One device call of the work that is begun.

ghost use Rattle.std.specs.Prelude.{◌≡◌, ◌≢◌, ◌≤◌, ◌⊎◌, ◌↔◌};
ghost use Rattle.alm_keeper.specs.Stages.{IsWorking};
ghost use Rattle.alm_disk.specs.Device.{IsImage};
ghost use Rattle.alm_disk.specs.Failures.{CountsFault, HasFailed};
ghost use Rattle.alm_store.specs.Calls.{IsCall};
ghost use Rattle.alm_keeper.specs.Keeper.{call_of, payload_of, Makes, CallsOnce};
ghost use Rattle.alm_keeper.specs.Keeping.{keeper_of, InOrder, FitsDevice, Keeps, PassesOn, LeavesSaying, EndsStep};

use crate::book::Book;
use crate::gated::call;
use crate::stage::{Stage, Work};
use alm_disk::{Disk, DiskFault};
use alm_store::Progress;

/// The device call that is next.
fn call_next<D: Disk>(disk: &mut D, book: &Book) -> Result<(), DiskFault>
    requires working { IsWorking book.now.stage }
    requires in_order { InOrder book.now }
    requires fits { FitsDevice book.now (D.size disk.old) }
    ensures same { (D.honest disk.old ↔ D.honest disk.new) × (D.size disk.new ≡ D.size disk.old) }
    ensures count { CountsFault result (D.failures disk.old) (D.failures disk.new) }
    ensures serves { D.serves disk.old (call_of (keeper_of disk.old book.now)) result disk.new }
    ensures makes { D.honest disk.old →
        Makes (call_of (keeper_of disk.old book.now)) (payload_of (keeper_of disk.old book.now))
        result (D.state disk.old) (D.state disk.new) }
    ensures is_call { D.honest disk.old → IsCall (D.state disk.old) (D.state disk.new) }
    ensures passes { D.honest disk.old → ∥ Keeps (D.state disk.old) book.now ∥₁ →
        ∥ PassesOn result (D.state disk.old) (D.state disk.new) book.now ∥₁ }
{
    match book.work {
        Work::Commit => call(
            disk,
            book.stage,
            book.gate,
            &book.frame[..book.frame_len()],
            book.layout.version,
        ),
        Work::Checkpoint => match book.stage {
            Stage::Body => call(
                disk,
                Stage::Body,
                book.other_at() + book.out as u64,
                book.piece(),
                book.layout.version,
            ),
            Stage::Retire => call(disk, Stage::Retire, book.own_at(), &[], book.layout.version),
            stage => call(disk, stage, book.other_at(), &[], book.layout.version),
        },
    }
}

/// One device call, and what it makes of the book.
pub fn advance<D: Disk>(disk: &mut D, book: &mut Book) -> Progress
    requires working { IsWorking book.old.stage }
    requires in_order { InOrder book.old }
    requires fits { FitsDevice book.old (D.size disk.old) }
    ensures same { (D.honest disk.old ↔ D.honest disk.new) × (D.size disk.new ≡ D.size disk.old) }
    ensures in_order { InOrder book.new }
    ensures fits { FitsDevice book.new (D.size disk.new) }
    ensures ends { EndsStep result book.old book.new }
    ensures counts { (D.failures disk.old ≤ D.failures disk.new) ×
        (result ≢ Progress.Failed → D.failures disk.new ≡ D.failures disk.old) ×
        (result ≡ Progress.Failed → HasFailed (D.failures disk.old) (D.failures disk.new)) }
    ensures call { CallsOnce ⟦<D as Disk>⟧ (call_of (keeper_of disk.old book.old))
        (payload_of (keeper_of disk.old book.old)) result disk.old disk.new }
    ensures is_call { D.honest disk.old → IsCall (D.state disk.old) (D.state disk.new) }
    ensures keeps { D.honest disk.old → ∥ Keeps (D.state disk.old) book.old ∥₁ →
        ∥ Keeps (D.state disk.new) book.new ∥₁ }
    ensures any_moment { D.honest disk.old → ∥ Keeps (D.state disk.old) book.old ∥₁ →
        ∥ LeavesSaying book.old
        (λ b. IsImage (D.state disk.old) b ⊎ IsImage (D.state disk.new) b) ∥₁ }
{
    match call_next(disk, book) {
        Ok(()) => book.go_on(),
        Err(_) => {
            book.stage = Stage::Stopped;
            Progress::Failed
        }
    }
}
