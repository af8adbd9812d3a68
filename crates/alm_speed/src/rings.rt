//! How fast a slot's rings are: one thread sends requests and receives their receipts, another answers them.
//!
//! What went through the slot is printed. The clock is outside: `bench/rings/run.sh` compares it with the same exchange over
//! channels of Rust's own library.

mod exchange;
mod untold;

use alm_types::Slot;
use anyhow::{Result, anyhow};
use exchange::exchange;
use std::alloc::Global;
use std::sync::Wait;
use std::thread::Threads;

/// Sends `requests` requests through a slot.
pub fn run<R: Print + Threads + Wait + Sync>(rt: &R, alloc: Global, requests: u64) -> Result<()> {
    let slot = Slot::new(0).ok_or_else(|| anyhow!("slot"))?;
    let report = exchange(rt, alloc, slot, requests)?.ok_or_else(|| anyhow!("report"))?;
    println!(rt;
        "sent {} taken {} released {} received {}",
        report.sent, report.taken, report.released, report.received
    )?;
    Ok(())
}
