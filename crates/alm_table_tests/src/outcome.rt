//! What becomes of a file.

use alm_table::{LoadFault, table_of};
use std::alloc::Global;
use std::test::Fail;

/// What is expected of a file.
#[derive(Clone, Copy, Debug)]
pub enum Outcome<'a> {
    Taken,
    NotToml,
    Rows,
    Key(Option<u32>, &'a str),
}

/// The parts of a text, one after the other.
pub fn joined(alloc: Global, parts: &[&str]) -> Result<String, Fail> {
    let mut text = String::new(alloc);
    for part in parts {
        text.push_str(part)?;
    }
    Ok(text)
}

/// Whether that becomes of a file.
pub fn becomes(alloc: Global, parts: &[&str], wanted: Outcome<'_>) -> Result<bool, Fail> {
    let text = joined(alloc, parts)?;
    Ok(match (table_of(alloc, text.as_str().as_bytes()), wanted) {
        (Ok(_), Outcome::Taken)
        | (Err(LoadFault::NotToml), Outcome::NotToml)
        | (Err(LoadFault::Rows), Outcome::Rows) => true,
        (Err(LoadFault::Key(alarm, key)), Outcome::Key(other, name)) => {
            alarm == other && key.as_str() == name
        }
        _ => false,
    })
}
