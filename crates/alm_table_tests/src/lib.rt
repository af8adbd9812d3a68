//! Tests of table files.
//!
//! | module | what it reads |
//! |---|---|
//! | `worked` | a file of four alarms: its size, its areas and each attribute, with and without the keys that may be missing |
//! | `faulty` | files with a fault, and with several: the first is reported |
//! | `limits` | each number at both ends of its limits and beyond them; tags and texts at their longest |
//! | `largest` | 16,384 alarms |
//! | `refused` | out of memory: a table is read whole or not at all |
//!
//! They are in a crate of their own: a crate with tests is proved twice.
#![tactic(auto)]

#[cfg(test)]
mod faulty;
#[cfg(test)]
mod largest;
#[cfg(test)]
mod limits;
#[cfg(test)]
mod outcome;
#[cfg(test)]
mod refused;
#[cfg(test)]
mod worked;
