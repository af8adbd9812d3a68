//! Eighteen clients together.

use crate::drawn_client::converse;
use crate::ports::free_ports;
use alm_common_tests::same;
use alm_desk::worked_table;
use alm_disk::Disk;
use alm_file::{FileDisk, Unknown};
use alm_keeper::{Keeper, format};
use alm_serve::serve_run;
use alm_store::Store;
use alm_threads_tests::folds::{Accepted, reopened};
use alm_threads_tests::notes::Notes;
use alm_types::{Slot, Table};
use std::alloc::Global;
use std::sync::atomic::Ordering;
use std::sync::{Arc, Wait};
use std::test::Fail;
use std::thread::Threads;
use std::{fs, io, thread};

/// How many lines each client sends.
const EACH: u64 = 200;

/// The device's file.
const PATH: &str = "eighteen.device";

/// All clients together. Whether each was answered in order.
fn all_converse<R: Threads + Wait>(
    threads: &R,
    rt: HostRuntime,
    port: u16,
    notes: &Arc<Notes, Global>,
) -> io::Result<bool> {
    let mut clients = Vec::new(rt.alloc());
    for number in 0..18_u8 {
        if let Some(slot) = Slot::new(number) {
            let notes = Arc::try_clone(notes)?;
            let own = port.saturating_add(u16::from(number));
            let client = thread::spawn(threads, move || converse(&rt, own, slot, EACH, &notes))?;
            clients.push(client)?;
        }
    }
    let mut all = true;
    for client in clients {
        all = client.join(threads)? && all;
    }
    Ok(all)
}

/// How many actions a device encodes, and whether they are those that were noted. `None` if it isn't opened.
fn kept<K: Store>(
    alloc: Global,
    disk: K::Device,
    table: &Table,
    notes: &Notes,
) -> Option<(u64, bool)> {
    reopened::<K>(alloc, disk, table, Accepted::Noted(notes))
}

#[test]
fn the_device_keeps_what_eighteen_clients_were_answered(rt: HostRuntime) -> Result<(), Fail> {
    let alloc = rt.alloc();
    let port = free_ports(&rt)?;
    let table = worked_table(alloc)?;
    let notes = Arc::new(alloc, Notes::new(alloc, 3600)?)?;
    let disk = FileDisk::make(&rt, PATH, 28_997, 28_997, Unknown)?;
    let disk = format(alloc, disk, &table).map_err(|_| "format")?;
    let noted = Arc::try_clone(&notes)?;
    let clients = thread::spawn(&rt, move || all_converse(&rt, rt, port, &noted))?;
    let mut output = Vec::new(alloc);
    let served = serve_run(&rt, alloc, disk, port, 18, &mut output);
    assert!(rt; clients.join(&rt)?);
    same(notes.wrong.load(Ordering::SeqCst), 0)?;
    let disk = FileDisk::open(&rt, PATH, Unknown)?;
    let (count, is_kept) = kept::<Keeper<FileDisk<Unknown>>>(alloc, disk, &table, &notes).ok_or(
        "opening",
    )?;
    assert!(rt; served == Ok(count));
    assert!(rt; is_kept);
    fs::remove_file(&rt, PATH)?;
    Ok(())
}
