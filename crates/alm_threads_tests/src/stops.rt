//! A source gets no turn after all threads are to stop.

use alm_board::{Look, PlainBoard, PlainTold, Seen};
use alm_common_tests::same;
use alm_desk::worked_table;
use alm_model::{Alarms, PlainPlant};
use alm_rings::{Console, Told, open_slot};
use alm_threads::{Go, Source, run_source};
use alm_types::Slot;
use alm_wake::{Bells, Flags, ThreadBell};
use std::alloc::Global;
use std::sync::atomic::{AtomicU64, Ordering};
use std::sync::{Arc, Wait};
use std::test::Fail;

/// How many turns the source asks for.
const TURNS: u64 = 3;

/// A source that counts its turns, and ends after the last. In one of them it has all threads stop.
#[derive(Drop)]
struct Counted<'f> {
    turns: Arc<AtomicU64, Global>,
    flags: &'f Flags<ThreadBell>,
    stops_in: u64,
}

impl<T: Told + Drop, L: Look<Told = T>> Source<T, L> for Counted<'_> {
    ghost use Rattle.std.specs.Prelude.{None};

    ghost slot = { λ _. None };

    fn turn(&mut self, _console: &mut Console<T>, _look: &mut L) -> Go {
        let turn = self.turns.fetch_add(1, Ordering::SeqCst).wrapping_add(1);
        if turn == self.stops_in {
            self.flags.stop_all();
        }
        if turn < TURNS { Go::Go } else { Go::End }
    }
}

/// How many turns it gets, if the threads are to stop from turn `stops_in` on.
fn turns<R: Wait>(rt: &R, alloc: Global, stops_in: u64) -> Option<u64> {
    let slot = Slot::new(0)?;
    let (console, _inbox, _outbox) = open_slot::<PlainTold>(alloc, slot).ok()?;
    let table = worked_table(alloc).ok()?;
    let board = PlainBoard::new(PlainPlant::new(alloc, &table).ok()?);
    let look = board.looker(Seen::new());
    let flags = Flags::<ThreadBell>::new(Bells::new(&[], Vec::new(alloc)));
    if stops_in == 0 {
        flags.stop_all();
    }
    let turns = Arc::new(alloc, AtomicU64::new(0)).ok()?;
    let counted = Counted {
        turns: Arc::try_clone(&turns).ok()?,
        flags: &flags,
        stops_in,
    };
    drop(run_source(rt, &flags, console, look, counted));
    Some(turns.load(Ordering::SeqCst))
}

#[test]
fn a_source_gets_no_turn_behind_a_stop(rt: HostRuntime) -> Result<(), Fail> {
    for stops_in in 0..=TURNS {
        same(turns(&rt, rt.alloc(), stops_in), Some(stops_in))?;
    }
    same(turns(&rt, rt.alloc(), u64::MAX), Some(TURNS))?;
    Ok(())
}
