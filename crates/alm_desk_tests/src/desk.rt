//! A desk over the worked table, and what it prints.

use alm_desk::{
    Backend, CountedReader, CountedWriter, LocalDesk, RunFault, desk_of, desk_run, worked_table,
};
use alm_model::Alarms;
use alm_plant::Plant;
use std::alloc::{AllocError, Global};
use std::io::Read;

/// A desk over a new plant of the worked table, however that keeps its alarms.
pub fn new_desk_over<P: Alarms + Drop>(alloc: Global) -> Result<LocalDesk<P>, AllocError> {
    let table = worked_table(alloc)?;
    desk_of(alloc, &table)
}

/// A desk over the new plant of the worked table.
pub fn new_desk(alloc: Global) -> Result<LocalDesk<Plant>, AllocError> {
    new_desk_over::<Plant>(alloc)
}

/// What a desk prints for what a reader returns.
pub fn printed<B: Backend + Drop, R: Read + Drop>(
    alloc: Global,
    desk: &mut LocalDesk<B>,
    reader: R,
) -> Result<Vec<u8>, RunFault> {
    let mut reader = CountedReader::new(reader);
    let mut writer = CountedWriter::new(Vec::new(alloc));
    desk_run(&mut reader, &mut writer, desk)?;
    Ok(writer.into_inner())
}
