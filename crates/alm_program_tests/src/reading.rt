//! Reads, and a desk over them.

use crate::script::{Script, Step};
use alm_common_tests::{holds_at, same_at};
use alm_desk::{
    Backend, CountedReader, CountedWriter, LocalDesk, ReadOutcome, RunFault, desk_of, desk_run,
    worked_table,
};
use alm_plant::Plant;
use std::alloc::Global;
use std::test::Fail;

/// What the reads do.
const STEPS: [Step<'static>; 6] = [
    Step::Gives(b"ab"),
    Step::Interrupted,
    Step::Gives(b"c"),
    Step::Fails,
    Step::Interrupted,
    Step::Gives(b"def"),
];

/// What each take gives, and the bytes with it.
const TAKES: [(ReadOutcome, &[u8]); 8] = [
    (ReadOutcome::Bytes(2), b"ab"),
    (ReadOutcome::Interrupted, b""),
    (ReadOutcome::Bytes(1), b"c"),
    (ReadOutcome::Failed, b""),
    (ReadOutcome::Interrupted, b""),
    (ReadOutcome::Bytes(3), b"def"),
    (ReadOutcome::End, b""),
    (ReadOutcome::End, b""),
];

#[test]
fn each_take_is_one_read() -> Result<(), Fail> {
    let mut reader = CountedReader::new(Script::new(&STEPS));
    for (row, (gave, bytes)) in TAKES.iter().enumerate() {
        let mut piece = [b'?'; 8];
        same_at(row, reader.take(&mut piece), *gave)?;
        holds_at(row, piece.starts_with(bytes))?;
    }
    Ok(())
}

/// A read that fails in the second line of three.
const FAILS: [Step<'static>; 3] = [
    Step::Gives(b"16 1 VAL 0 800\n0 2"),
    Step::Fails,
    Step::Gives(b"0 3 ACK 0\n"),
];

/// Whether a desk answers what is whole before and after that read.
fn goes_on<B: Backend + Drop>(alloc: Global, desk: &mut LocalDesk<B>) -> bool {
    let mut reader = CountedReader::new(Script::new(&FAILS));
    let mut writer = CountedWriter::new(Vec::new(alloc));
    let fails = desk_run(&mut reader, &mut writer, desk) == Err(RunFault::Read);
    let open = !desk.is_closed();
    let ends = desk_run(&mut reader, &mut writer, desk) == Ok(());
    let printed = writer.into_inner();
    let same = printed.as_slice() == b"16 1 OK 1\n0 3 OK 2\n".as_slice();
    fails && open && ends && same && desk.failures() == 0
}

#[test]
fn a_desk_goes_on_after_a_read_that_failed(rt: HostRuntime) -> Result<(), Fail> {
    let alloc = rt.alloc();
    let mut desk = desk_of::<Plant>(alloc, &worked_table(alloc)?)?;
    let same = goes_on(alloc, &mut desk);
    drop(desk);
    assert!(rt; same);
    Ok(())
}
