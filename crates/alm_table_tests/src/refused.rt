//! Out of memory: run with each allocation refused in turn (`rt try --test --fail-alloc N`), this passes. One is refused at most,
//! so what was refused is read the second time: a reader that always gives up doesn't pass.

use alm_common_tests::same;
use alm_table::{LoadFault, table_of};
use alm_types::Table;
use std::alloc::Global;
use std::test::Fail;

const TEXT: &[u8] =
    b"size = 28997\nareas = 2\n[[alarm]]\nkind = \"high\"\nsetpoint = 800\npriority = 1\narea = 1\ntag = \"TI-101\"\n";

/// What the text says, or `None` if it is refused as out of memory.
fn read(alloc: Global) -> Result<Option<(u64, Table)>, Fail> {
    match table_of(alloc, TEXT) {
        Ok(said) => Ok(Some(said)),
        Err(LoadFault::OutOfMemory) => Ok(None),
        Err(_) => Err("another fault".into()),
    }
}

#[test]
fn a_table_is_read_whole_or_not_at_all(rt: HostRuntime) -> Result<(), Fail> {
    let alloc = rt.alloc();
    let first = read(alloc)?;
    let said = match first {
        Some(said) => Some(said),
        None => read(alloc)?,
    };
    let Some((size, table)) = said else {
        return Err("refused twice".into());
    };
    same(size, 28_997)?;
    same(table.areas(), 2)?;
    same(table.alarms().len(), 1)?;
    Ok(())
}
