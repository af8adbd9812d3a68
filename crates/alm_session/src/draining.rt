//! The requests and receipts that a lost connection leaves.

ghost use Rattle.std.specs.Prelude.{◌≡◌, ◌↔◌, ◌≤◌, ◌+◌, IsTrue, length, false, true};
ghost use Rattle.alm_rings.specs.Ends.{SameConsole, sent_of, received_of};
ghost use Rattle.alm_session.specs.Draining.{HasReceivedAll, IsDrained};
ghost use Rattle.alm_session.specs.Sides.{heard_by, IsQuiet};

use alm_board::FreeLook;
use alm_rings::{Console, Told};

/// Receives a receipt, learns what it reports and drops it: false if none is known to wait.
fn drop_one<T: Told + Drop, L: FreeLook<Told = T>>(console: &mut Console<T>, look: &mut L) -> bool
    ensures base { L.Look.base look.new ≡ L.Look.base look.old }
    ensures end { SameConsole console.old console.new }
    ensures sent { sent_of console.new ≡ sent_of console.old }
    ensures drained { IsDrained (L.Look.base look.old) (L.Look.knows look.old)
        (heard_by console.old) (L.Look.knows look.new) (heard_by console.new) }
    ensures quiet { result ≡ false → IsQuiet console.new }
    ensures one { result ≡ true →
        length (received_of console.new) ≡ length (received_of console.old) + 1 }
{
    match console.receive() {
        Some(receipt) => {
            look.learn(receipt);
            true
        }
        None => false,
    }
}

/// Receives, learns and drops all receipts that are known to wait, of which there are at most 64: whether no request of
/// the slot is unanswered.
pub fn drain<T: Told + Drop, L: FreeLook<Told = T>>(console: &mut Console<T>, look: &mut L) -> bool
    ensures base { L.Look.base look.new ≡ L.Look.base look.old }
    ensures end { SameConsole console.old console.new }
    ensures sent { sent_of console.new ≡ sent_of console.old }
    ensures drained { IsDrained (L.Look.base look.old) (L.Look.knows look.old)
        (heard_by console.old) (L.Look.knows look.new) (heard_by console.new) }
    ensures all { HasReceivedAll console.old console.new }
    ensures settled { IsTrue result ↔
        (length (sent_of console.new) ≤ length (received_of console.new)) }
{
    for _receipt in 0..64_usize {
        if !drop_one(console, look) {
            return console.unanswered() == 0;
        }
    }
    console.unanswered() == 0
}
