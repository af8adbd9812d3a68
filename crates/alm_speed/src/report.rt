//! What a benchmark prints.

use anyhow::Result;

/// Writes a sum, and to standard error the time with it.
pub fn report(rt: &(impl Print + Eprint), name: &str, sum: u64, took: u128) -> Result<()> {
    println!(rt; "{name} {sum}")?;
    eprintln!(rt; "{name} {sum} {took}")?;
    Ok(())
}
