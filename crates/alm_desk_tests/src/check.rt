//! A check of a row.

use crate::desk::{new_desk, new_desk_over, printed};
use crate::device_desk::prints_over_a_device;
use alm_common_tests::{holds_at, same_at};
use alm_desk::{Backend, LocalDesk};
use alm_model::{Alarms, PlainPlant};
use alm_plant::Plant;
use std::alloc::Global;
use std::io::Read;
use std::process::Abort;
use std::test::Fail;

/// A row: lines, each at a slot and with its one reply.
pub type Row = &'static [(u8, &'static str, &'static str)];

/// The desk's lines of a row, and what it prints for them.
fn texts(alloc: Global, row: Row) -> Result<(String, String), Fail> {
    let mut input = String::new(alloc);
    let mut output = String::new(alloc);
    for (slot, line, reply) in row {
        input.push_str(format!(in alloc; "{slot} {line}\n")?.as_str())?;
        output.push_str(format!(in alloc; "{slot} {reply}\n")?.as_str())?;
    }
    Ok((input, output))
}

/// Whether a desk prints this for what a reader returns.
pub fn prints<B: Backend + Drop, I: Read + Drop>(
    alloc: Global,
    desk: &mut LocalDesk<B>,
    reader: I,
    wanted: &[u8],
) -> bool {
    match printed(alloc, desk, reader) {
        Ok(got) => got.as_slice() == wanted,
        Err(_) => false,
    }
}

/// The number of the first line of a row that a desk answers otherwise.
fn first_wrong<B: Backend + Drop>(
    alloc: Global,
    desk: &mut LocalDesk<B>,
    row: Row,
) -> Result<Option<usize>, Fail> {
    for place in 0..row.len() {
        let (input, wanted) = texts(alloc, &row[place..=place])?;
        let wanted = wanted.as_str().as_bytes();
        if !prints(alloc, desk, input.as_str().as_bytes(), wanted) {
            return Ok(Some(place));
        }
    }
    Ok(None)
}

/// Feeds the lines of a row one by one to a desk over a new plant: the number of the first that is answered otherwise.
fn first_wrong_of_new<P: Alarms + Drop>(alloc: Global, row: Row) -> Result<Option<usize>, Fail> {
    let mut desk = new_desk_over::<P>(alloc)?;
    let found = first_wrong(alloc, &mut desk, row);
    drop(desk);
    found
}

/// Whether a new desk prints this for what a reader returns.
pub fn prints_anew<I: Read + Drop>(alloc: Global, reader: I, wanted: &[u8]) -> bool {
    match new_desk(alloc) {
        Ok(mut desk) => {
            let same = prints(alloc, &mut desk, reader, wanted);
            drop(desk);
            same
        }
        Err(_) => false,
    }
}

/// Checks the replies of a new desk to the lines of a row, each a slot, a line and its reply. It does so over either plant,
/// however the lines are cut, and over a device.
pub fn check<R: Abort + AllocGlobal>(rt: &R, name: &str, row: Row) -> Result<(), Fail> {
    let alloc = rt.alloc();
    let wrong = first_wrong_of_new::<Plant>(alloc, row)?;
    same_at(name, wrong, None)?;
    let wrong = first_wrong_of_new::<PlainPlant>(alloc, row)?;
    same_at(name, wrong, None)?;
    let (input, wanted) = texts(alloc, row)?;
    let input = input.as_str().as_bytes();
    let wanted = wanted.as_str().as_bytes();
    for at in 0..=input.len() {
        let (front, back) = input.split_at(at);
        let same = prints_anew(alloc, front.chain(back), wanted);
        holds_at((name, at), same)?;
    }
    let same = prints_over_a_device(alloc, input, wanted);
    holds_at(name, same)?;
    Ok(())
}
