//! Out of memory: run with each allocation refused in turn (`rt try --test --fail-alloc N`), the test of this module passes. One
//! is refused at most, so the list that was refused is answered the second time.

use crate::desk::new_desk;
use alm_common_tests::slot_of;
use alm_desk::{Backend, CountedWriter, LocalDesk};
use alm_types::Slot;
use std::alloc::Global;
use std::test::Fail;

/// What is answered to an alarm that comes, and then to two questions for the list that it is in.
const TOLD: &[u8] = b"1 OK 1\n2 LIST 1 1 0\n3 LIST 1 1 0\n";

/// The same if there was no memory for the first list.
const TOLD_LATER: &[u8] = b"1 OK 1\n2 NO 16\n3 LIST 1 1 0\n";

/// What a desk answers to them, appended to what is written.
fn replies_of<B: Backend + Drop>(
    desk: &mut LocalDesk<B>,
    (feed, console): (Slot, Slot),
    written: Vec<u8>,
) -> Vec<u8> {
    let mut writer = CountedWriter::new(written);
    let _comes = desk.feed(feed, b"1 VAL 0 800\n", &mut writer);
    let _asked = desk.feed(console, b"2 LIST P 1\n3 LIST P 1\n", &mut writer);
    writer.into_inner()
}

/// The replies of a new desk, if there was memory for the desk and for their bytes.
fn replies(alloc: Global, slots: (Slot, Slot)) -> Option<Vec<u8>> {
    let room = Vec::with_capacity(alloc, 64).ok()?;
    let mut desk = new_desk(alloc).ok()?;
    let replies = replies_of(&mut desk, slots, room);
    drop(desk);
    Some(replies)
}

#[test]
fn a_list_without_memory_is_told_when_it_is_asked_for_again(rt: HostRuntime) -> Result<(), Fail> {
    let feed = slot_of(16)?;
    let console = slot_of(0)?;
    let told = match replies(rt.alloc(), (feed, console)) {
        Some(told) => told,
        None => replies(rt.alloc(), (feed, console)).ok_or("refused twice")?,
    };
    let told = told.as_slice();
    assert!(rt; told == TOLD || told == TOLD_LATER);
    Ok(())
}
