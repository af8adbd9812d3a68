//! Tests of the chains and of the wheel: worked rows, and drawn calls compared with plain vectors.
//!
//! | module | what it tries |
//! |---|---|
//! | `rows` | the worked rows, and copies that change independently |
//! | `drawn_chains` | 100,000 drawn calls on two families and on a vector for each list, every list compared |
//! | `drawn_wheel` | drawn deadlines and queries compared with a sorted filter, and jumps over the whole range |
//! | `largest` | chains and a wheel over 16,384 nodes |
//! | `refused` | out of memory: what can't be copied stays as it is |
//!
//! They are in a crate of their own: a crate with tests is proved twice.
#![tactic(auto)]

#[cfg(test)]
mod drawn_chains;
#[cfg(test)]
mod drawn_wheel;
#[cfg(test)]
mod largest;
#[cfg(test)]
mod pair;
#[cfg(test)]
mod plain;
#[cfg(test)]
mod refused;
#[cfg(test)]
mod rows;
#[cfg(test)]
mod shelves;
